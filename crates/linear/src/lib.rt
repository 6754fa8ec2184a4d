// Vector spaces over any field and of any width: spans, reduced bases, dictionary order, entries, extensions, the walk, rank, formulae of a space, heavy
// values. No code. Start at proofs/Theorems.antt; the laws stand in specs/laws/ and proofs/laws/. Forms as words are its instance `word`; their code is in `forms`.
#![tactic(auto)]
