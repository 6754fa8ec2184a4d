// What the Formulae program prints of an input. It prints entry by entry, so that no page holds it all; specs/ shows that the parts
// are the whole, and what they mean.
// plan          the plan by which it prints
// first_part    what it prints first, and the plan of what is left
// entry_parts   what it prints of an entry
// parts         all it prints, part by part
// Writing the parts in order is left to the program.
#![tactic(auto)]

pub mod entry_parts;
pub mod first_part;
pub mod parts;
pub mod plan;
