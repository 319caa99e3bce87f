// The whole stack of two blocks, one above the other, at the overlap of their columns: the rows of both, and the refusals.
#![tactic(auto)]

pub mod stacking;
mod writing;

// What a stack answers, where it is not refused: the overlap, the height and the width of the result.
#[derive(Clone, Copy, PartialEq, Eq)]
pub struct Stacked {
    pub overlap: usize,
    pub height: usize,
    pub width: usize,
}
