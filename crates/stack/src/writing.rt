// The rows of a stack, written one after another, each with its end behind it.
ghost use Rattle.std.specs.Prelude.{◌≤◌};

use columns::Placed;
use subchars::{SubCharacter, VerticalLayout};

// Two blocks, the last rows of the upper one over the first rows of the lower one.
#[derive(Clone, Copy)]
pub struct Overlaid<'a> {
    pub layout: VerticalLayout,
    pub hardblank: SubCharacter,
    pub upper: Placed<'a>,
    pub lower: Placed<'a>,
    pub overlap: usize,
    pub ghost fits: { (overlap ≤ upper.height) × (overlap ≤ lower.height) },
}

impl<'a> Overlaid<'a> {
    ghost use Rattle.std.specs.Prelude.{◌≡◌, ◌++◌, ℕ, ◌+◌, ◌*◌, ◌<◌, ◌≤◌, length, take};
    ghost use Rattle.ground.specs.Area.{values};
    ghost use Rattle.ground.specs.Limits.{max_line_width};
    ghost use Rattle.ground.specs.Text.{byte};
    ghost use Rattle.blocks.specs.Block.{rows_of};
    ghost use Rattle.columns.specs.Placing.{with_end};
    ghost use Rattle.stack.specs.StackCall.{lfs};
    ghost use Rattle.stack.specs.Overlaying.{rows_high, columns_wide, overlaid_cells};

    // How many rows both have.
    pub fn height(&self) -> usize
        ensures { result ≡ rows_high self.now }
    {
        self.upper.height + self.lower.height - self.overlap
    }

    // How many columns both have.
    pub fn width(&self) -> usize
        ensures { result ≡ columns_wide self.now }
    {
        self.upper.width.max(self.lower.width)
    }

    // A sub-character of the stack: the upper block's, what a pair becomes, or the lower block's.
    fn cell(&self, r: usize, c: usize) -> SubCharacter
        requires { r < rows_high self.now }
        ensures { result.0 ≡ overlaid_cells self.now r c }
    {
        let cut = self.upper.height - self.overlap;
        if r < cut {
            return self.upper.cell(self.hardblank, r, c);
        }
        let y = self.lower.cell(self.hardblank, r - cut, c);
        if r < self.upper.height {
            let x = self.upper.cell(self.hardblank, r, c);
            return vertical::merged_byte(self.layout, x, y);
        }
        y
    }

    // Writes row r of the stack at out[at..].
    fn write_row(&self, out: &mut [u8], at: usize, r: usize)
        requires r_lt_height { r < rows_high self.now }
        requires in_bounds { at + columns_wide self.now ≤ length out.old }
        ensures { take (at + columns_wide self.now) out.new ≡ take at out.old ++ values (overlaid_cells self.now r) (columns_wide self.now) }
    {
        for c in 0..self.width() {
            out[at + c] = self.cell(r, c).0;
        }
    }

    // Writes the stack, with an LF behind each row where one is asked for.
    pub fn write_rows(&self, out: &mut [u8], lf_ended: bool)
        requires in_bounds { rows_high self.now * (columns_wide self.now + lfs lf_ended) ≤ length out.old }
        ensures { take (rows_high self.now * (columns_wide self.now + lfs lf_ended)) out.new ≡ rows_of (with_end (columns_wide self.now) (overlaid_cells self.now)) (rows_high self.now) (columns_wide self.now + lfs lf_ended) }
    {
        let width = self.width();
        let mut at: usize = 0;
        for r in 0..self.height() {
            self.write_row(out, at, r);
            at += width;
            if lf_ended {
                out[at] = b'\n';
                at += 1;
            }
        }
    }
}
