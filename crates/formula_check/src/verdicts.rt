// What Check finds.

// The first output whose row does not give the target.
#[derive(Clone, Copy)]
pub enum Verdict {
    Right,
    Wrong(u64),
}
