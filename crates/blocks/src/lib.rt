// Blocks whose rows lie one after another: where they start, and a part of one copied.
#![tactic(auto)]

ghost use Rattle.std.specs.Prelude.{◌≡◌, ◌++◌, ◌+◌, ◌≤◌, length, take};
ghost use Rattle.ground.specs.Area.{values};
ghost use Rattle.ground.specs.Limits.{max_font_length, max_height};
ghost use Rattle.blocks.specs.Writing.{from_on, Stored, RowAfterRow};

use ground::limits;

// Copies s[from..from + n] to out[at..].
pub fn copy_part(out: &mut [u8], at: usize, s: &[u8], from: usize, n: usize)
    requires { (at + n ≤ length out.old) × (from + n ≤ length s.now) }
    ensures out_after { take (at + n) out.new ≡ take at out.old ++ values (from_on s.now from) n }
    ensures stored { Stored (from_on s.now from) at n out.old out.new }
{
    for k in 0..n {
        out[at + k] = s[from + k];
    }
}

// Where the rows of a block of width w start.
pub fn row_starts(w: usize, h: usize) -> [usize; limits::MAX_HEIGHT]
    requires { (h ≤ max_height) × (w ≤ max_font_length) }
    ensures { RowAfterRow w h result }
{
    let mut starts = [0usize; limits::MAX_HEIGHT];
    for r in 0..h {
        starts[r] = r * w;
    }
    starts
}
