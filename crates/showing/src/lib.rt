// A line put out: its rows, each with LF behind it, or a refusal.
#![tactic(auto)]

ghost use Rattle.std.specs.Prelude.{◌≡◌, Err, ◌++◌, ℕ, ◌+◌, ◌*◌, ◌≤◌, length, take};
ghost use Rattle.ground.specs.Area.{values, zeros, padded};
ghost use Rattle.ground.specs.Limits.{max_line_width, max_height, min_scratch};
ghost use Rattle.ground.specs.Refusals.{refusal};
ghost use Rattle.blocks.specs.Block.{rows_of};
ghost use Rattle.blocks.specs.Writing.{from_on};
ghost use Rattle.showing.specs.Output.{with_lf, output_of, output_bytes};
ghost use Rattle.showing.specs.Scratch.{line_start, scratch_line};

use ground::limits;
use ground::refusals::{Reason, Refusal};
use subchars::{Direction, Mode, SubCharacter};

// Writes one row at out[at..], hardblanks as blanks, and LF behind it.
fn show_row(out: &mut [u8], at: usize, area: &[u8], from: usize, w: usize, hardblank: SubCharacter)
    requires { (at + (w + 1) ≤ length out.old) × (from + w ≤ length area.now) }
    ensures { take (at + (w + 1)) out.new ≡ take at out.old ++ values (with_lf hardblank.0 w (from_on area.now from)) (w + 1) }
{
    let mut k: usize = 0;
    while k < w {
        let x = subchars::blanked(SubCharacter(area[from + k]), hardblank);
        out[at + k] = x.0;
        k += 1;
    }
    out[at + w] = b'\n';
}

// Writes h rows of the area, w columns from column `from` on, each with its LF.
pub fn show_rows(
    out: &mut [u8],
    area: &[u8],
    from: usize,
    w: usize,
    hardblank: SubCharacter,
    h: usize,
)
    requires h_le_max_height { (h ≤ max_height) × (from + w ≤ max_line_width) × (min_scratch ≤ length area.now) }
    requires w_in_bounds { h * (w + 1) ≤ length out.old }
    ensures { take (h * (w + 1)) out.new ≡ rows_of (λ (r : ℕ). with_lf hardblank.0 w (from_on area.now (r * max_line_width + from))) h (w + 1) }
{
    let mut r: usize = 0;
    let mut at: usize = 0;
    while r < h {
        show_row(
            out,
            at,
            area,
            r * limits::MAX_LINE_WIDTH + from,
            w,
            hardblank,
        );
        at += w + 1;
        r += 1;
    }
}

// The column where a line w wide starts in the area.
pub fn line_start(direction: Direction, w: usize) -> usize
    requires { w ≤ max_line_width }
    ensures { result ≡ line_start direction w }
{
    match direction {
        Direction::LeftToRight => 0,
        Direction::RightToLeft => limits::MAX_LINE_WIDTH - w,
    }
}

// A refusal of the output, with zeros all through it.
fn refuse(reason: Reason, out: &mut [u8]) -> Result<usize, Refusal>
    ensures { (result ≡ Err (refusal reason 0)) × (out.new ≡ zeros (length out.old)) }
{
    ground::zero_from(out, 0);
    Err(Refusal::of(reason))
}

// Puts out the line w wide that the area holds and answers its width, or refuses: 16 for a line over 1,000 columns, then 9 for too little room.
pub fn put_out(
    out: &mut [u8],
    area: &[u8],
    mode: Mode,
    w: usize,
    h: usize,
) -> Result<usize, Refusal>
    requires { (h ≤ max_height) × (min_scratch ≤ length area.now) }
    ensures value { result ≡ output_of h (scratch_line mode.direction w area.now) (length out.old) }
    ensures out_after { out.new ≡ padded (output_bytes mode.hardblank.0 h (scratch_line mode.direction w area.now) (length out.old)) (length out.old) }
{
    if limits::MAX_LINE_WIDTH < w {
        return refuse(Reason::LineTooWide, out);
    }
    let need = h * (w + 1);
    if out.len() < need {
        return refuse(Reason::AreaTooSmall, out);
    }
    let direction = mode.direction;
    let hardblank = mode.hardblank;
    show_rows(out, area, line_start(direction, w), w, hardblank, h);
    ground::zero_from(out, need);
    Ok(w)
}
