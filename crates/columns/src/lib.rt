// Two blocks one above the other, where a lane is a column: their overlap. Hardblanks are taken for blanks, and the narrower block has blanks on its right.
#![tactic(auto)]

pub mod overlaps;

ghost use Rattle.columns.specs.Lying.{Lies};

use subchars::SubCharacter;

// A block that lies in a slice: row r and column c at r * stride + base + c. Its rows are within the slice, and its sizes within the limits.
#[derive(Clone, Copy)]
pub struct Placed<'a> {
    pub bytes: &'a [u8],
    pub base: usize,
    pub stride: usize,
    pub width: usize,
    pub height: usize,
    pub ghost lies: { Lies bytes.now base stride width height },
}

impl<'a> Placed<'a> {
    ghost use Rattle.std.specs.Prelude.{◌≡◌, ◌<◌};
    ghost use Rattle.columns.specs.Placing.{placed_columns};

    // A sub-character of a block: the hardblank as a blank, and blanks on the right of the block.
    pub fn cell(self, hardblank: SubCharacter, r: usize, c: usize) -> SubCharacter
        requires { r < self.height }
        ensures { result.0 ≡ placed_columns hardblank.0 self.entry c r }
    {
        if c < self.width {
            return subchars::blanked(
                SubCharacter(self.bytes[r * self.stride + self.base + c]),
                hardblank,
            );
        }
        SubCharacter(b' ')
    }
}
