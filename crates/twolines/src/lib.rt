// The lines of two texts, drawn by one font, one above the other.
#![tactic(auto)]

ghost use Rattle.std.specs.Prelude.{◌≡◌, List, ℕ, ◌≤◌, length};
ghost use Rattle.ground.specs.Limits.{max_line_width, max_height, max_text, min_scratch, min_stacked_scratch};
ghost use Rattle.showing.specs.Scratch.{scratch_line};
ghost use Rattle.mapping.specs.Passing.{ControlHeld};
ghost use Rattle.subchars.specs.declared.Code.{Code};
ghost use Rattle.subchars.specs.declared.Mode.{Mode};
ghost use Rattle.source.specs.Source.{Source};
ghost use Rattle.source.specs.Held.{Gives};
ghost use Rattle.fontlists.specs.Held.{FontHeld};
ghost use Rattle.columns.specs.Placing.{placed_block};
ghost use Rattle.drawing.specs.Drawing.{text_codes, lined_text};
ghost use Rattle.twolines.specs.Steps.{BothDrawn, BothCounted, counts_beside};
ghost use Rattle.twolines.specs.TwoLines.{vertical_of, TwoLines, closed_up, lines_of, stack_part, counts_part, LinesOut};

use columns::Placed;
use drawing::DrawnText;
use ground::limits;
use ground::refusals::{Reason, Refusal};
use header::Header;
use source::{Counts, Origin};
use stack::{Stacked, stacking};
use subchars::{Direction, Mode, VerticalLayout};

// What drawing two texts answers: at which overlap the lines are closed up, how high and wide both are, and the counts over both texts; or a refusal.
#[derive(Clone, Copy)]
pub enum LinesAnswer {
    Drawn {
        overlap: usize,
        height: usize,
        width: usize,
        counts: Counts,
    },
    Refused(Refusal),
}

// Two texts that were drawn.
#[derive(Clone, Copy)]
pub struct DrawnTexts {
    pub upper: DrawnText,
    pub lower: DrawnText,
}

// The vertical layout of a header: full height where Full_Layout is absent.
fn vertical_of(given: Option<usize>) -> VerticalLayout
    ensures { result ≡ vertical_of given }
{
    match given {
        None => VerticalLayout::FULL_HEIGHT,
        Some(full) => VerticalLayout::from_full(full),
    }
}

// A refusal, with zeros all through the output.
pub fn refuse(refusal: Refusal, out: &mut [u8]) -> LinesAnswer
    ensures { LinesOut (TwoLines.no_lines refusal) (length out.old) result out.new }
{
    ground::zero_from(out, 0);
    LinesAnswer::Refused(refusal)
}

// Where a drawn line lies in its area.
fn line_in<'a>(area: &'a [u8], direction: Direction, width: usize, height: usize) -> Placed<'a>
    requires { (width ≤ max_line_width) × (1 ≤ height) × (height ≤ max_height) × (min_scratch ≤ length area.now) }
    ensures { (result.height ≡ height) × (placed_block result ≡ scratch_line direction width area.entry.now) }
{
    Placed {
        bytes: area,
        base: showing::line_start(direction, width),
        stride: limits::MAX_LINE_WIDTH,
        width,
        height,
    }
}

// The counts beside the answer of stacking; none beside a refusal.
fn with_counts(counts: Counts, answer: Result<Stacked, Refusal>) -> LinesAnswer
    ensures { (stack_part result ≡ answer) × (counts_part result ≡ counts_beside counts answer) }
{
    match answer {
        Ok(stacked) => LinesAnswer::Drawn {
            overlap: stacked.overlap,
            height: stacked.height,
            width: stacked.width,
            counts,
        },
        Err(r) => LinesAnswer::Refused(r),
    }
}

// Puts out the two lines that the halves of the scratch hold, with the counts over both: 16 for either, then 9.
fn put_lines(
    out: &mut [u8],
    scratch: &[u8],
    drawn: DrawnTexts,
    counts: Counts,
    mode: Mode,
    vertical: VerticalLayout,
    height: usize,
) -> LinesAnswer
    requires { (1 ≤ height) × (height ≤ max_height) × (min_stacked_scratch ≤ length scratch.now) }
    ensures { (source : Source) (us ls : List Code) → BothDrawn mode height source us ls drawn scratch.now → BothCounted source us ls drawn counts → LinesOut (closed_up vertical (lined_text mode height source us) (lined_text mode height source ls)) (length out.old) result out.new }
{
    let u = drawn.upper.width;
    let l = drawn.lower.width;
    if limits::MAX_LINE_WIDTH < u || limits::MAX_LINE_WIDTH < l {
        return refuse(Refusal::of(Reason::LineTooWide), out);
    }
    let (first, second) = scratch.split_at(limits::MIN_SCRATCH);
    let upper = line_in(first, mode.direction, u, height);
    let lower = line_in(second, mode.direction, l, height);
    let answer = stacking::put_stack(out, true, vertical, mode.hardblank, upper, lower);
    with_counts(counts, answer)
}

// Draws two texts, each into its half of the scratch.
fn join_both(
    scratch: &mut [u8],
    upper: &[u8],
    lower: &[u8],
    mode: Mode,
    height: usize,
    font: &[u8],
    origin: Origin,
    codes: &[i32],
    starts: &[usize],
    widths: &[usize],
    places: &[usize],
    commands: usize,
    stages: &[usize],
    firsts: &[i32],
    lasts: &[i32],
    news: &[i32],
) -> DrawnTexts
    requires gives { (source : Source) × Gives source font.now font.now height origin codes.now starts.now widths.now places.now }
    requires by_index { (control : List ℕ) × ControlHeld control commands stages.now firsts.now lasts.now news.now }
    requires min_stacked_scratch_in_bounds { min_stacked_scratch ≤ length scratch.old }
    ensures { (source : Source) (given : Gives source font.now font.now height origin codes.now starts.now widths.now places.now) (control : List ℕ) (held : ControlHeld control commands stages.now firsts.now lasts.now news.now) → BothDrawn mode height source (text_codes held.commands held.count upper.now) (text_codes held.commands held.count lower.now) result scratch.new }
{
    let half = limits::MIN_SCRATCH;
    let most = limits::MAX_LINE_WIDTH;
    let first = drawing::join_text(
        &mut scratch[..half],
        upper,
        most,
        mode,
        height,
        font,
        font,
        origin,
        codes,
        starts,
        widths,
        places,
        commands,
        stages,
        firsts,
        lasts,
        news,
    );
    let second = drawing::join_text(
        &mut scratch[half..],
        lower,
        most,
        mode,
        height,
        font,
        font,
        origin,
        codes,
        starts,
        widths,
        places,
        commands,
        stages,
        firsts,
        lasts,
        news,
    );
    DrawnTexts {
        upper: first,
        lower: second,
    }
}

// The counts over two texts that were drawn.
fn count_both(
    drawn: DrawnTexts,
    font: &[u8],
    height: usize,
    origin: Origin,
    codes: &[i32],
    starts: &[usize],
    widths: &[usize],
    places: &[usize],
) -> Counts
    requires gives { (source : Source) × Gives source font.now font.now height origin codes.now starts.now widths.now places.now }
    requires missing_le_max_text { (drawn.upper.missing ≤ max_text) × (drawn.lower.missing ≤ max_text) }
    ensures { (source : Source) → Gives source font.now font.now height origin codes.now starts.now widths.now places.now → (mode : Mode) (us ls : List Code) (scratch : List ℕ) → BothDrawn mode height source us ls drawn scratch → BothCounted source us ls drawn result }
{
    let missing = drawn.upper.missing + drawn.lower.missing;
    source::counts_of(
        missing, font, font, height, origin, codes, starts, widths, places,
    )
}

// Draws two texts by a font and a control file that were read: 15 and 16 of either, then 9.
pub fn draw_texts(
    out: &mut [u8],
    scratch: &mut [u8],
    upper: &[u8],
    lower: &[u8],
    font: &[u8],
    header: Header,
    count: usize,
    codes: &[i32],
    starts: &[usize],
    widths: &[usize],
    places: &[usize],
    commands: usize,
    stages: &[usize],
    firsts: &[i32],
    lasts: &[i32],
    news: &[i32],
) -> LinesAnswer
    requires font_held { FontHeld font.now header count codes.now starts.now widths.now places.now }
    requires by_index { (control : List ℕ) × ControlHeld control commands stages.now firsts.now lasts.now news.now }
    requires min_stacked_scratch_in_bounds { min_stacked_scratch ≤ length scratch.old }
    ensures { (control : List ℕ) → ControlHeld control commands stages.now firsts.now lasts.now news.now → LinesOut (lines_of font.now control upper.now lower.now) (length out.old) result out.new }
{
    if limits::MAX_TEXT < upper.len() || limits::MAX_TEXT < lower.len() {
        return refuse(Refusal::of(Reason::TextTooLong), out);
    }
    let mode = drawing::mode_of(header);
    let height = header.height;
    let full = header.full_layout;
    let origin = Origin::Font { count };
    let drawn = join_both(
        scratch, upper, lower, mode, height, font, origin, codes, starts, widths, places, commands,
        stages, firsts, lasts, news,
    );
    let counts = count_both(drawn, font, height, origin, codes, starts, widths, places);
    put_lines(out, scratch, drawn, counts, mode, vertical_of(full), height)
}
