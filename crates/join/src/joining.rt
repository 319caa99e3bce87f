// A join as it is asked for: the shape is tested, the direction puts the blocks side by side, and the lent area is filled. Refusals 17, 16, 9.
ghost use Rattle.std.specs.Prelude.{length};
ghost use Rattle.blocks.specs.Block.{exact_block};
ghost use Rattle.join.specs.Shape.{Sized};
ghost use Rattle.join.specs.JoinCall.{Refuses, BlocksGive, JoinGives};

use crate::{Joined, Side, shape};
use ground::limits;
use ground::refusals::{Reason, Refusal};
use lanes::View;
use subchars::{Direction, Mode};

// A refusal, with zeros all through the area.
fn refuse(reason: Reason, out: &mut [u8]) -> Result<Joined, Refusal>
    ensures { Refuses reason (length out.old) result out.new }
{
    ground::zero_from(out, 0);
    Err(Refusal::of(reason))
}

// Joins two blocks of h rows.
fn join_blocks(
    mode: Mode,
    h: usize,
    left: Side,
    right: Side,
    out: &mut [u8],
) -> Result<Joined, Refusal>
    requires sized { Sized h left.width left.bytes.now }
    requires sized_2 { Sized h right.width right.bytes.now }
    ensures { BlocksGive mode h (exact_block left.entry.width left.entry.bytes.now) (exact_block right.entry.width right.entry.bytes.now) (length out.old) result out.new }
{
    let a_starts = blocks::row_starts(left.width, h);
    let b_starts = blocks::row_starts(right.width, h);
    let a = View {
        base: 0,
        along: 1,
        len: left.width,
    };
    let b = View {
        base: 0,
        along: 1,
        len: right.width,
    };
    let overlap = overlap::overlap_of(mode, left.bytes, &a_starts, a, right.bytes, &b_starts, b, h);
    let width = left.width + right.width - overlap;
    if limits::MAX_LINE_WIDTH < width {
        return refuse(Reason::LineTooWide, out);
    }
    if out.len() < h * width {
        return refuse(Reason::AreaTooSmall, out);
    }
    crate::write_rows(out, mode, left, right, overlap, h);
    ground::zero_from(out, h * width);
    Ok(Joined { overlap, width })
}

// Joins a FIGcharacter to a line of h rows, on the side that the direction says.
pub fn join_to_line(
    mode: Mode,
    h: usize,
    line: &[u8],
    line_width: usize,
    character: &[u8],
    character_width: usize,
    out: &mut [u8],
) -> Result<Joined, Refusal>
    ensures { JoinGives mode h line_width line.now character_width character.now (length out.old) result out.new }
{
    if !shape::good_shape(
        mode,
        h,
        line_width,
        line.len(),
        character_width,
        character.len(),
    ) {
        return refuse(Reason::BadShape, out);
    }
    let line = Side {
        bytes: line,
        width: line_width,
    };
    let character = Side {
        bytes: character,
        width: character_width,
    };
    match mode.direction {
        Direction::LeftToRight => join_blocks(mode, h, line, character, out),
        Direction::RightToLeft => join_blocks(mode, h, character, line, out),
    }
}
