// Chosen generators: of those marked a part that is independent, those with given numbers, a formula's rows, and its record in a buffer.
// All formulae of a space: `space_formulae`.
#![tactic(auto)]

ghost use Rattle.std.specs.Prelude.{◌≡◌, [], map, ◌+◌, ◌<◌, ◌≤◌, length};
ghost use Rattle.std.proofs.Math.Seq.{paste};
ghost use Rattle.linear.specs.Word.{word};
ghost use Rattle.linear.specs.Greedy.{greedy};
ghost use Rattle.words.specs.laws.Masks.{AllBelow};
ghost use Rattle.bases.specs.rows.Rows.{row_of};
ghost use Rattle.choices.specs.Choice.{Whole, Chose, Solves, forms_of, record_of, Added, marked};
ghost use Rattle.kinds.specs.Limits.{most_products, most_generators};

use bases::Basis;

// Some generators: their numbers, ascending, their forms, and how many they are.
#[derive(Clone, Copy)]
pub struct Choice {
    pub numbers: [u64; kinds::PRODUCTS],
    pub forms: [u64; kinds::PRODUCTS],
    pub len: usize,
}

// One generator more.
pub fn add(c: Choice, j: usize, g: u64) -> Choice
    requires { (Whole c) × (c.len < most_products) }
    ensures { Added c j g result }
{
    let mut numbers = c.numbers;
    let mut forms = c.forms;
    let n = c.len;
    numbers[n] = j as u64;
    forms[n] = g;
    Choice {
        numbers,
        forms,
        len: n + 1,
    }
}

// Of the marked generators in order each that is not in the span of those taken before it.
pub fn choose(gens: &[u64], marks: &[u8]) -> Choice
    requires { length gens.now ≤ length marks.now }
    ensures { Chose gens.now
        (greedy word gens.now (marked marks.now) [] (length gens.now) 0) result }
{
    let mut b = Basis::empty();
    let mut c = Choice {
        numbers: [0u64; kinds::PRODUCTS],
        forms: [0u64; kinds::PRODUCTS],
        len: 0,
    };
    for (i, g) in gens.iter().enumerate() {
        if marks[i] == 1 && !b.contains(*g) {
            b = b.insert(*g);
            c = add(c, i, *g);
        }
    }
    c
}

// The generators with these numbers.
pub fn pick(gens: &[u64], numbers: &[u64]) -> Choice
    requires { (length gens.now ≤ most_generators) × (length numbers.now ≤ most_products) × AllBelow (length gens.now) numbers.now }
    ensures { Chose gens.now numbers.now result }
{
    let mut c = Choice {
        numbers: [0u64; kinds::PRODUCTS],
        forms: [0u64; kinds::PRODUCTS],
        len: 0,
    };
    for x in numbers {
        let j = *x as usize;
        c = add(c, j, gens[j]);
    }
    c
}

// A row for every target, from place `at` on. The products are reduced once.
fn put_rows(products: &[u64], targets: &[u64], out: &mut [u64], at: usize)
    requires { (length products.now ≤ most_products) × (at + length targets.now ≤ length out.old) × Solves products.now targets.now }
    ensures { out.new ≡ paste out.old at (map (row_of products.now) targets.now)
        (length targets.now) }
{
    let n = products.len();
    let e = bases::rows::echelon_of(products);
    for (i, target) in targets.iter().enumerate() {
        out[at + i] = bases::rows::rest_of(&e.rows[..n], &e.masks[..n], *target).mask;
    }
}

// The formula's record, from place `at` on: the numbers of its products, then a row for every target.
pub fn write_formula(c: Choice, targets: &[u64], out: &mut [u64], at: usize)
    requires { (Whole c) × (at + (c.len + length targets.now) ≤ length out.old) × Solves (forms_of c) targets.now }
    ensures { out.new ≡ paste out.old at (record_of c targets.now) (c.len + length targets.now) }
{
    words::copy(&c.numbers[..c.len], out, at);
    put_rows(&c.forms[..c.len], targets, out, at + c.len);
}
