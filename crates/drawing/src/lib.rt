// Drawing a line of text from a source of characters, by a control file.
#![tactic(auto)]

ghost use Rattle.std.specs.Prelude.{◌≡◌, List, ℕ, ◌<◌, ◌≤◌, pos, length};
ghost use Rattle.ground.specs.Limits.{max_line_width, max_height, min_scratch};
ghost use Rattle.subchars.specs.declared.Code.{Code};
ghost use Rattle.chars.specs.Codes.{code};
ghost use Rattle.blocks.specs.Writing.{RowAfterRow};
ghost use Rattle.showing.specs.Scratch.{scratch_line};
ghost use Rattle.flc.specs.Control as flc;
ghost use Rattle.mapping.specs.Passing.{ControlHeld};
ghost use Rattle.source.specs.Source.{Choice, Source};
ghost use Rattle.source.specs.Counting.{counts_of};
ghost use Rattle.source.specs.Held.{Gives};
ghost use Rattle.source.specs.Steps.{ChosenAs, PickedAs};
ghost use Rattle.drawing.specs.Drawing.{direction_of, mode_of, text_codes, byte_choice, line_of, Lined, lined_text, lined_from, with_counts, PutOut};
ghost use Rattle.drawing.specs.Steps.{with_character, Reached, TextDrawn};

use fontlists::two;
use ground::limits;
use ground::refusals::{Reason, Refusal};
use header::Header;
use source::{Chosen, Counts, Origin, Picked};
use subchars::{Code, Direction, Mode};

// What drawing answers: the width of the line, how many text bytes were stood in and how many drew nothing; or a refusal.
#[derive(Clone, Copy)]
pub enum DrawAnswer {
    Drawn { width: usize, counts: Counts },
    Refused(Refusal),
}

// A text that was drawn into a scratch area: the width of its line, and how many of its codes are not in the font.
#[derive(Clone, Copy)]
pub struct DrawnText {
    pub width: usize,
    pub missing: usize,
}

// The direction of a header: left to right where Print_Direction is absent.
fn direction_of(given: Option<usize>) -> Direction
    ensures { result ≡ direction_of given }
{
    match given {
        None => Direction::LeftToRight,
        Some(n) => Direction::from_print(n),
    }
}

// How a font's FIGcharacters are joined.
pub fn mode_of(header: Header) -> Mode
    ensures { result ≡ mode_of header }
{
    let given = header.print_direction;
    let direction = direction_of(given);
    let layout = header.layout;
    let hardblank = header.hardblank;
    Mode {
        layout,
        direction,
        hardblank,
    }
}

// Joins the character that was chosen for a code to the line, n wide, in the area; answers the new width. Its rows start at the places found. A line that
// would be wider than the limit leaves the area as it was.
pub fn draw_chosen<'a>(
    area: &mut [u8],
    chosen: Chosen,
    found: &'a [usize],
    rows: &'a [usize],
    n: usize,
    limit: usize,
    mode: Mode,
    height: usize,
    font: &[u8],
) -> usize
    requires chosen_as { (x : Choice) × ChosenAs font.now found.now height chosen x }
    requires n_le_limit { (n ≤ limit) × (limit ≤ max_line_width) × (height ≤ max_height) × (min_scratch ≤ length area.old) }
    requires row_after_row { RowAfterRow max_line_width height rows.now }
    ensures reached { (x : Choice) → ChosenAs font.now found.now height chosen x → Reached mode height limit result area.new (with_character mode height x (scratch_line mode.direction n area.old)) }
    ensures area_unchanged { limit < result → area.new ≡ area.old }
{
    match chosen {
        Chosen::Character { width, own: _ } => {
            let attached = figure::attach(area, rows, n, limit, mode, font, found, width, height);
            attached.width
        }
        Chosen::Nothing => n,
    }
}

// The code of a text byte.
fn code_of(byte: u8) -> Code
    ensures { result ≡ code (pos byte) }
{
    Code(byte as i32)
}

// The character that is drawn for a byte of a text, of the given height; where its rows start is written into a lent list.
pub fn choose_byte<'a>(
    byte: u8,
    font: &'a [u8],
    second: &'a [u8],
    height: usize,
    origin: Origin,
    codes: &[i32],
    starts: &[usize],
    widths: &[usize],
    places: &[usize],
    commands: usize,
    stages: &[usize],
    firsts: &[i32],
    lasts: &[i32],
    news: &[i32],
    found: &mut [usize],
) -> Picked
    requires gives { (source : Source) × Gives source font.now second.now height origin codes.now starts.now widths.now places.now }
    requires by_index { (control : List ℕ) × ControlHeld control commands stages.now firsts.now lasts.now news.now }
    requires max_height_in_bounds { max_height ≤ length found.old }
    ensures { (source : Source) → Gives source font.now second.now height origin codes.now starts.now widths.now places.now → (control : List ℕ) (held : ControlHeld control commands stages.now firsts.now lasts.now news.now) → PickedAs font.now second.now found.new height result (byte_choice source held.commands held.count byte) }
{
    let own = code_of(byte);
    let code = mapping::map_by(stages, firsts, lasts, news, commands, own);
    source::choose(
        code, font, second, height, origin, codes, starts, widths, places, found,
    )
}

// Joins the characters of a text in turn, from an empty line on, and counts the codes that are not in the font. It stops where the line passes the limit.
pub fn join_text<'a>(
    area: &mut [u8],
    text: &[u8],
    limit: usize,
    mode: Mode,
    height: usize,
    font: &'a [u8],
    second: &'a [u8],
    origin: Origin,
    codes: &[i32],
    starts: &[usize],
    widths: &[usize],
    places: &[usize],
    commands: usize,
    stages: &[usize],
    firsts: &[i32],
    lasts: &[i32],
    news: &[i32],
) -> DrawnText
    requires gives { (source : Source) × Gives source font.now second.now height origin codes.now starts.now widths.now places.now }
    requires by_index { (control : List ℕ) × ControlHeld control commands stages.now firsts.now lasts.now news.now }
    requires limit_le_max_line_width { (limit ≤ max_line_width) × (min_scratch ≤ length area.old) }
    ensures { (source : Source) (given : Gives source font.now second.now height origin codes.now starts.now widths.now places.now) (control : List ℕ) (held : ControlHeld control commands stages.now firsts.now lasts.now news.now) → TextDrawn mode height limit source (text_codes held.commands held.count text.now) result area.new }
{
    let rows = blocks::row_starts(limits::MAX_LINE_WIDTH, height);
    let mut found = [0usize; limits::MAX_HEIGHT];
    let mut n: usize = 0;
    let mut missing: usize = 0;
    let mut i: usize = 0;
    while i < text.len() {
        let picked = choose_byte(
            text[i], font, second, height, origin, codes, starts, widths, places, commands, stages,
            firsts, lasts, news, &mut found,
        );
        let chosen = picked.chosen;
        let its = picked.font;
        let bytes = two::bytes_in(its, font, second);
        n = draw_chosen(area, chosen, &found, &rows, n, limit, mode, height, bytes);
        missing = source::count_missing(missing, chosen);
        if limit < n {
            return DrawnText { width: n, missing };
        }
        i += 1;
    }
    DrawnText { width: n, missing }
}

// A refusal, with zeros all through the output.
pub fn refuse(r: Refusal, out: &mut [u8]) -> DrawAnswer
    ensures { PutOut (Lined.unlined r) (length out.old) result out.new }
{
    ground::zero_from(out, 0);
    DrawAnswer::Refused(r)
}

// The counts beside the answer of putting out; none beside a refusal.
fn with_counts(counts: Counts, answer: Result<usize, Refusal>) -> DrawAnswer
    ensures { result ≡ with_counts counts answer }
{
    match answer {
        Ok(width) => DrawAnswer::Drawn { width, counts },
        Err(r) => DrawAnswer::Refused(r),
    }
}

// Puts out the line that a text has drawn in the area, w wide, with its counts.
fn put_out(
    out: &mut [u8],
    area: &[u8],
    mode: Mode,
    height: usize,
    w: usize,
    counts: Counts,
) -> DrawAnswer
    requires { (height ≤ max_height) × (min_scratch ≤ length area.now) }
    ensures { (source : Source) (codes : List Code) → Reached mode height max_line_width w area.now (line_of mode height source codes) → (w ≤ max_line_width → counts ≡ counts_of source codes) → PutOut (lined_text mode height source codes) (length out.old) result out.new }
{
    let answer = showing::put_out(out, area, mode, w, height);
    with_counts(counts, answer)
}

// Draws a text from a source of characters, by a control file that was read: 15, 16, then 9 for the output.
pub fn draw_from<'a>(
    out: &mut [u8],
    area: &mut [u8],
    text: &[u8],
    mode: Mode,
    height: usize,
    font: &'a [u8],
    second: &'a [u8],
    origin: Origin,
    codes: &[i32],
    starts: &[usize],
    widths: &[usize],
    places: &[usize],
    commands: usize,
    stages: &[usize],
    firsts: &[i32],
    lasts: &[i32],
    news: &[i32],
) -> DrawAnswer
    requires gives { (source : Source) × Gives source font.now second.now height origin codes.now starts.now widths.now places.now }
    requires by_index { (control : List ℕ) × ControlHeld control commands stages.now firsts.now lasts.now news.now }
    requires min_scratch_in_bounds { min_scratch ≤ length area.old }
    ensures { (source : Source) → Gives source font.now second.now height origin codes.now starts.now widths.now places.now → (control : List ℕ) → ControlHeld control commands stages.now firsts.now lasts.now news.now → PutOut (lined_from mode height source (flc.control control) text.now) (length out.old) result out.new }
{
    if limits::MAX_TEXT < text.len() {
        return refuse(Refusal::of(Reason::TextTooLong), out);
    }
    let limit = limits::MAX_LINE_WIDTH;
    let drawn = join_text(
        area, text, limit, mode, height, font, second, origin, codes, starts, widths, places,
        commands, stages, firsts, lasts, news,
    );
    let missing = drawn.missing;
    let counts = source::counts_of(
        missing, font, second, height, origin, codes, starts, widths, places,
    );
    put_out(out, area, mode, height, drawn.width, counts)
}

// Draws a text from a source of characters and by a control file: its refusals, 15, 16, then 9 for the output.
pub fn draw_mapped<'a>(
    out: &mut [u8],
    area: &mut [u8],
    text: &[u8],
    mode: Mode,
    height: usize,
    font: &'a [u8],
    second: &'a [u8],
    origin: Origin,
    codes: &[i32],
    starts: &[usize],
    widths: &[usize],
    places: &[usize],
    control: &[u8],
) -> DrawAnswer
    requires gives { (source : Source) × Gives source font.now second.now height origin codes.now starts.now widths.now places.now }
    requires min_scratch_in_bounds { min_scratch ≤ length area.old }
    ensures { (source : Source) → Gives source font.now second.now height origin codes.now starts.now widths.now places.now → PutOut (lined_from mode height source (flc.control control.now) text.now) (length out.old) result out.new }
{
    let mut stages = [0usize; limits::MAX_COMMANDS];
    let mut firsts = [0i32; limits::MAX_COMMANDS];
    let mut lasts = [0i32; limits::MAX_COMMANDS];
    let mut news = [0i32; limits::MAX_COMMANDS];
    match flc::read_lists(control, &mut stages, &mut firsts, &mut lasts, &mut news) {
        Ok(read) => draw_from(
            out,
            area,
            text,
            mode,
            height,
            font,
            second,
            origin,
            codes,
            starts,
            widths,
            places,
            read.commands,
            &stages,
            &firsts,
            &lasts,
            &news,
        ),
        Err(r) => refuse(r, out),
    }
}
