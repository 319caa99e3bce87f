// A FIGure and a list of overlaps of another program, compared with a line that was drawn.
#![tactic(auto)]

ghost use Rattle.std.specs.Prelude.{◌≡◌, List, [], ◌∷◌, ◌++◌, ℕ, ◌+◌, ◌-◌, ◌*◌, ◌<◌, ◌≤◌, ◌^◌, length};
ghost use Rattle.ground.specs.Limits.{max_line_width, max_height, min_scratch};
ghost use Rattle.blocks.specs.Block.{rows_of};
ghost use Rattle.blocks.specs.Writing.{from_on};
ghost use Rattle.showing.specs.Output.{with_lf, shown};
ghost use Rattle.showing.specs.Scratch.{scratch_line};
ghost use Rattle.checking.specs.Difference.{first_difference};
ghost use Rattle.checking.specs.Verdict.{line_checked};
ghost use Rattle.checking.specs.Steps.{so_far, first_wrong_of, tallied};

use ground::limits;
use ground::refusals::{Reason, Refusal};
use subchars::{Mode, SubCharacter};

// What a check finds: the drawing is right, the number of the first wrong overlap in the list, or the place of the first wrong byte in the FIGure.
#[derive(Clone, Copy, PartialEq, Eq)]
pub enum Verdict {
    Accepted,
    WrongOverlap(usize),
    WrongByte(usize),
}

// What is known of a list of overlaps while a text is drawn: how many characters were drawn, and which is the first wrong overlap.
#[derive(Clone, Copy)]
pub struct Tally {
    pub drawn: usize,
    pub wrong: Option<usize>,
}

// Byte k of a row as it is put out, w columns from a place on: hardblanks as blanks, and LF behind them.
fn shown_byte(area: &[u8], from: usize, w: usize, k: usize, hardblank: SubCharacter) -> u8
    requires { from + w ≤ length area.now }
    ensures { result ≡ with_lf hardblank.0 w (from_on area.now from) k }
{
    if k < w {
        let x = subchars::blanked(SubCharacter(area[from + k]), hardblank);
        return x.0;
    }
    b'\n'
}

// Where a FIGure first differs from h rows of the area as they are put out, w columns from column `from` on.
fn compare_rows(
    area: &[u8],
    from: usize,
    w: usize,
    hardblank: SubCharacter,
    h: usize,
    figure: &[u8],
) -> Option<usize>
    requires { (h ≤ max_height) × (from + w ≤ max_line_width) × (min_scratch ≤ length area.now) }
    ensures { result ≡ first_difference (rows_of (λ (q : ℕ). with_lf hardblank.0 w (from_on area.now (q * max_line_width + from))) h (w + 1)) figure.now }
{
    let need = h * (w + 1);
    let shorter = need.min(figure.len());
    let mut r: usize = 0;
    let mut k: usize = 0;
    for i in 0..shorter {
        let x = shown_byte(area, r * limits::MAX_LINE_WIDTH + from, w, k, hardblank);
        if figure[i] != x {
            return Some(i);
        }
        if k < w {
            k += 1;
        } else {
            k = 0;
            r += 1;
        }
    }
    if need == figure.len() {
        return None;
    }
    Some(shorter)
}

// Compares a FIGure with the line w wide that the area holds, as it is put out.
pub fn compare_line(area: &[u8], mode: Mode, w: usize, h: usize, figure: &[u8]) -> Option<usize>
    requires { (h ≤ max_height) × (w ≤ max_line_width) × (min_scratch ≤ length area.now) }
    ensures { result ≡ first_difference (shown mode.hardblank.0 h (scratch_line mode.direction w area.now)) figure.now }
{
    let direction = mode.direction;
    let hardblank = mode.hardblank;
    let from = showing::line_start(direction, w);
    compare_rows(area, from, w, hardblank, h, figure)
}

// Where the right overlaps first differ from as many of a list, with one right overlap more, which has number k.
fn compare_next(wrong: Option<usize>, k: usize, right: usize, overlaps: &[usize]) -> Option<usize>
    ensures { (before : List ℕ) → length before ≡ k → wrong ≡ so_far before overlaps.now → result ≡ so_far (before ++ (right ∷ [])) overlaps.now }
{
    if overlaps.len() <= k {
        return wrong.or(Some(k));
    }
    if overlaps[k] == right {
        return wrong;
    }
    wrong.or(Some(k))
}

// What is known of a list of overlaps before the first character.
pub fn none_drawn() -> Tally
    ensures { (overlaps : List ℕ) → result ≡ tallied overlaps [] }
{
    Tally {
        drawn: 0,
        wrong: None,
    }
}

// What is known of a list of overlaps with one character more, which was joined at the given overlap.
pub fn with_overlap(tally: Tally, overlap: usize, overlaps: &[usize]) -> Tally
    requires { tally.drawn < 2 ^ 63 }
    ensures { (trace : List ℕ) → tally ≡ tallied overlaps.now trace → result ≡ tallied overlaps.now (trace ++ (overlap ∷ [])) }
{
    let drawn = tally.drawn;
    if drawn == 0 {
        return Tally {
            drawn: 1,
            wrong: None,
        };
    }
    let before = tally.wrong;
    let wrong = compare_next(before, drawn - 1, overlap, overlaps);
    Tally {
        drawn: drawn + 1,
        wrong,
    }
}

// Checks a FIGure and a list of overlaps against the line w wide that the area holds: 16 for a line over 1,000 columns, 25 for a list of the wrong length, then the
// first wrong overlap, else the first wrong byte.
pub fn check_line(
    area: &[u8],
    mode: Mode,
    w: usize,
    h: usize,
    tally: Tally,
    overlaps: &[usize],
    figure: &[u8],
) -> Result<Verdict, Refusal>
    requires { (h ≤ max_height) × (min_scratch ≤ length area.now) }
    ensures { (trace : List ℕ) → (w ≤ max_line_width → tally ≡ tallied overlaps.now trace) → result ≡ line_checked mode.hardblank.0 h (scratch_line mode.direction w area.now) trace overlaps.now figure.now }
{
    if limits::MAX_LINE_WIDTH < w {
        return Err(Refusal::of(Reason::LineTooWide));
    }
    let drawn = tally.drawn;
    if overlaps.len() != drawn.saturating_sub(1) {
        return Err(Refusal::of(Reason::WrongLength));
    }
    let wrong = tally.wrong;
    if let Some(k) = wrong {
        return Ok(Verdict::WrongOverlap(k));
    }
    match compare_line(area, mode, w, h, figure) {
        Some(place) => Ok(Verdict::WrongByte(place)),
        None => Ok(Verdict::Accepted),
    }
}
