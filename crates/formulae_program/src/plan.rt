// The plan by which the Formulae program prints, entry by entry.
use kinds::Shape;

// What is left to print: the problem's kind and sizes and k, what its Catalogue says, and how many generators and targets stand in the buffers.
#[derive(Clone, Copy)]
pub struct Plan {
    pub shape: Shape,
    pub k: u64,
    pub ell: u64,
    pub found: u64,
    pub shown: usize,
    pub generators: usize,
    pub targets: usize,
}

// What is said of an input: a refusal's number, or the plan.
#[derive(Clone, Copy)]
pub enum Started {
    Refused(u64),
    Listed(Plan),
}
