// How a form stands in words: one word or two, over two elements or three. No code yet: the search is over any layout in its statements, and its functions are
// those of the layout in use, Narrow. specs/Layout.antt says which vectors words are, and which words vectors are.
#![tactic(auto)]

// How a form stands in a slice of words.
#[derive(Clone, Copy)]
pub enum Layout {
    // Two elements, up to 64 coordinates: one word.
    Narrow,
    // Two elements, up to 128 coordinates: two words, the low one first.
    Wide,
    // Three elements, up to 64 coordinates: the mask of the nonzero digits, then the mask of the twos.
    Ternary,
}
