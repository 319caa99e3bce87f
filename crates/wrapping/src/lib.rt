// A text drawn in lines that are at most a limit wide.
#![tactic(auto)]

ghost use Rattle.std.specs.Prelude.{◌≡◌, List, ℕ, ◌≤◌, length};
ghost use Rattle.ground.specs.Area.{zeros};
ghost use Rattle.ground.specs.Limits.{max_text, max_line_width, min_lines, min_scratch};
ghost use Rattle.mapping.specs.Passing.{ControlHeld};
ghost use Rattle.fontlists.specs.Held.{FontHeld};
ghost use Rattle.source.specs.Counting.{is_missing, how_many, counts_of};
ghost use Rattle.drawing.specs.Drawing.{text_codes};
ghost use Rattle.bothfiles.specs.Held.{FilesHeld};
ghost use Rattle.breaks.specs.Breaking.{Span};
ghost use Rattle.spans.specs.Spans.{line_by, wide_in};
ghost use Rattle.wrapping.specs.Wrapping.{Wrap, wrap_lines, wrap_text, bad_limit, wrap_of, draw_wrapped, WrapOut};
ghost use Rattle.breaks.specs.Steps.{NoneWider};
ghost use Rattle.spans.specs.Steps.{DrawsBy, PutAs};

use bothfiles::Files;
use ground::limits;
use ground::refusals::{Reason, Refusal};
use header::Header;
use index::latest;
use source::{Counts, Origin};
use spans::{Drawer, LinesPut};

// What drawing a text in lines answers: how many lines, and the counts of the whole text; or a refusal.
#[derive(Clone, Copy)]
pub enum WrapAnswer {
    Wrapped { lines: usize, counts: Counts },
    Refused(Refusal),
}

// A refusal, with zeros all through the lists and the output.
fn refuse(
    line_firsts: &mut [usize],
    line_ends: &mut [usize],
    out: &mut [u8],
    refusal: Refusal,
) -> WrapAnswer
    ensures { WrapOut (Wrap.unwrapped refusal) (length line_firsts.old) (length line_ends.old) (length out.old) result line_firsts.new line_ends.new out.new }
{
    ground::fill_from(line_firsts, 0, 0);
    ground::fill_from(line_ends, 0, 0);
    ground::zero_from(out, 0);
    WrapAnswer::Refused(refusal)
}

// What the lines that were put come to, with zeros behind them; 9 where the output has no room for them.
fn finish_lines(
    line_firsts: &mut [usize],
    line_ends: &mut [usize],
    out: &mut [u8],
    put: LinesPut,
    counts: Counts,
) -> WrapAnswer
    requires { (spans : List Span) × (drawn : List Span → List ℕ) × PutAs spans drawn (length out.old) put line_firsts.old line_ends.old out.old }
    ensures { (spans : List Span) (drawn : List Span → List ℕ) → PutAs spans drawn (length out.old) put line_firsts.old line_ends.old out.old → WrapOut (Wrap.wrapped spans (drawn spans) counts) (length line_firsts.old) (length line_ends.old) (length out.old) result line_firsts.new line_ends.new out.new }
{
    match put {
        LinesPut::Put { lines, bytes } => {
            ground::fill_from(line_firsts, lines, 0);
            ground::fill_from(line_ends, lines, 0);
            ground::zero_from(out, bytes);
            WrapAnswer::Wrapped { lines, counts }
        }
        LinesPut::NoRoom => refuse(
            line_firsts,
            line_ends,
            out,
            Refusal::of(Reason::AreaTooSmall),
        ),
    }
}

// Draws a text in lines, none of whose characters is too wide: 9 for the output. How many of its codes are not in the font is known.
fn wrap_lines(
    line_firsts: &mut [usize],
    line_ends: &mut [usize],
    out: &mut [u8],
    area: &mut [u8],
    text: &[u8],
    wide: &[usize],
    missing: usize,
    drawer: Drawer,
    font: &[u8],
    codes: &[i32],
    starts: &[usize],
    widths: &[usize],
    places: &[usize],
    stages: &[usize],
    firsts: &[i32],
    lasts: &[i32],
    news: &[i32],
) -> WrapAnswer
    requires none_wider { (x : DrawsBy drawer font.now codes.now starts.now widths.now places.now stages.now firsts.now lasts.now news.now) × NoneWider (wide_in (line_by drawer.mode drawer.height x.source x.held.commands x.held.count) text.now) drawer.limit text.now }
    requires limit_le_max_line_width { (drawer.limit ≤ max_line_width) × (min_scratch ≤ length area.old) × (length text.now ≤ max_text) × (length text.now ≤ length wide.now) }
    requires min_lines_in_bounds { (min_lines ≤ length line_firsts.old) × (min_lines ≤ length line_ends.old) }
    ensures { (x : DrawsBy drawer font.now codes.now starts.now widths.now places.now stages.now firsts.now lasts.now news.now) → NoneWider (wide_in (line_by drawer.mode drawer.height x.source x.held.commands x.held.count) text.now) drawer.limit text.now → missing ≡ how_many is_missing x.source (text_codes x.held.commands x.held.count text.now) → WrapOut (wrap_lines drawer.mode drawer.height (line_by drawer.mode drawer.height x.source x.held.commands x.held.count) drawer.limit text.now (counts_of x.source (text_codes x.held.commands x.held.count text.now))) (length line_firsts.old) (length line_ends.old) (length out.old) result line_firsts.new line_ends.new out.new }
{
    let put = spans::put_lines(
        line_firsts,
        line_ends,
        out,
        area,
        text,
        wide,
        drawer,
        font,
        codes,
        starts,
        widths,
        places,
        stages,
        firsts,
        lasts,
        news,
    );
    let counts = source::counts_of(
        missing,
        font,
        font,
        drawer.height,
        Origin::Font {
            count: drawer.count,
        },
        codes,
        starts,
        widths,
        places,
    );
    finish_lines(line_firsts, line_ends, out, put, counts)
}

// Draws a text in lines: 19, then 9 for the output.
fn wrap_text(
    line_firsts: &mut [usize],
    line_ends: &mut [usize],
    out: &mut [u8],
    area: &mut [u8],
    text: &[u8],
    drawer: Drawer,
    font: &[u8],
    codes: &[i32],
    starts: &[usize],
    widths: &[usize],
    places: &[usize],
    stages: &[usize],
    firsts: &[i32],
    lasts: &[i32],
    news: &[i32],
) -> WrapAnswer
    requires draws_by { DrawsBy drawer font.now codes.now starts.now widths.now places.now stages.now firsts.now lasts.now news.now }
    requires limit_le_max_line_width { (drawer.limit ≤ max_line_width) × (min_scratch ≤ length area.old) × (length text.now ≤ max_text) }
    requires min_lines_in_bounds { (min_lines ≤ length line_firsts.old) × (min_lines ≤ length line_ends.old) }
    ensures { (x : DrawsBy drawer font.now codes.now starts.now widths.now places.now stages.now firsts.now lasts.now news.now) → WrapOut (wrap_text drawer.mode drawer.height x.source x.held.commands x.held.count drawer.limit text.now) (length line_firsts.old) (length line_ends.old) (length out.old) result line_firsts.new line_ends.new out.new }
{
    let mut wide = [0usize; limits::MAX_TEXT];
    let measured = spans::measure(
        &mut wide, text, drawer, font, codes, starts, widths, places, stages, firsts, lasts, news,
    );
    let place = measured.place;
    if place < text.len() {
        let refusal = Refusal {
            reason: Reason::CharacterTooWide,
            place,
        };
        return refuse(line_firsts, line_ends, out, refusal);
    }
    wrap_lines(
        line_firsts,
        line_ends,
        out,
        area,
        text,
        &wide,
        measured.missing,
        drawer,
        font,
        codes,
        starts,
        widths,
        places,
        stages,
        firsts,
        lasts,
        news,
    )
}

// Whether a column limit is outside 1 to 1,000.
fn bad_limit(limit: usize) -> bool
    ensures { result ≡ bad_limit limit }
{
    limit < 1 || limits::MAX_LINE_WIDTH < limit
}

// Draws a text in lines by a font and a control file that were read: 15, 17, 19, then 9 for the output.
fn wrap_read(
    line_firsts: &mut [usize],
    line_ends: &mut [usize],
    out: &mut [u8],
    area: &mut [u8],
    text: &[u8],
    limit: usize,
    header: Header,
    count: usize,
    commands: usize,
    font: &[u8],
    codes: &[i32],
    starts: &[usize],
    widths: &[usize],
    places: &[usize],
    stages: &[usize],
    firsts: &[i32],
    lasts: &[i32],
    news: &[i32],
) -> WrapAnswer
    requires font_held { FontHeld font.now header count codes.now starts.now widths.now places.now }
    requires by_index { (control : List ℕ) × ControlHeld control commands stages.now firsts.now lasts.now news.now }
    requires min_scratch_in_bounds { min_scratch ≤ length area.old }
    requires min_lines_in_bounds { (min_lines ≤ length line_firsts.old) × (min_lines ≤ length line_ends.old) }
    ensures { (control : List ℕ) → ControlHeld control commands stages.now firsts.now lasts.now news.now → WrapOut (wrap_of font.now control limit text.now) (length line_firsts.old) (length line_ends.old) (length out.old) result line_firsts.new line_ends.new out.new }
{
    if limits::MAX_TEXT < text.len() {
        return refuse(
            line_firsts,
            line_ends,
            out,
            Refusal::of(Reason::TextTooLong),
        );
    }
    if bad_limit(limit) {
        return refuse(line_firsts, line_ends, out, Refusal::of(Reason::BadShape));
    }
    let mode = drawing::mode_of(header);
    let height = header.height;
    let drawer = Drawer {
        limit,
        mode,
        height,
        count,
        commands,
    };
    wrap_text(
        line_firsts,
        line_ends,
        out,
        area,
        text,
        drawer,
        font,
        codes,
        starts,
        widths,
        places,
        stages,
        firsts,
        lasts,
        news,
    )
}

// Draws a text in lines by what reading the files gave; the lists hold it.
fn wrap_files(
    line_firsts: &mut [usize],
    line_ends: &mut [usize],
    out: &mut [u8],
    area: &mut [u8],
    text: &[u8],
    limit: usize,
    files: Files,
    font: &[u8],
    codes: &[i32],
    starts: &[usize],
    widths: &[usize],
    places: &[usize],
    stages: &[usize],
    firsts: &[i32],
    lasts: &[i32],
    news: &[i32],
) -> WrapAnswer
    requires by_index { (control : List ℕ) × FilesHeld font.now control files codes.now starts.now widths.now places.now stages.now firsts.now lasts.now news.now }
    requires min_scratch_in_bounds { min_scratch ≤ length area.old }
    requires min_lines_in_bounds { (min_lines ≤ length line_firsts.old) × (min_lines ≤ length line_ends.old) }
    ensures { (control : List ℕ) → FilesHeld font.now control files codes.now starts.now widths.now places.now stages.now firsts.now lasts.now news.now → WrapOut (wrap_of font.now control limit text.now) (length line_firsts.old) (length line_ends.old) (length out.old) result line_firsts.new line_ends.new out.new }
{
    match files {
        Files::Read {
            header,
            count,
            commands,
        } => wrap_read(
            line_firsts,
            line_ends,
            out,
            area,
            text,
            limit,
            header,
            count,
            commands,
            font,
            codes,
            starts,
            widths,
            places,
            stages,
            firsts,
            lasts,
            news,
        ),
        Files::Refused(r) => refuse(line_firsts, line_ends, out, r),
    }
}

// Reads both files and draws a text in lines.
fn wrap_once(
    line_firsts: &mut [usize],
    line_ends: &mut [usize],
    out: &mut [u8],
    area: &mut [u8],
    text: &[u8],
    limit: usize,
    font: &[u8],
    control: &[u8],
) -> WrapAnswer
    requires min_scratch_in_bounds { min_scratch ≤ length area.old }
    requires min_lines_in_bounds { (min_lines ≤ length line_firsts.old) × (min_lines ≤ length line_ends.old) }
    ensures { WrapOut (wrap_of font.now control.now limit text.now) (length line_firsts.old) (length line_ends.old) (length out.old) result line_firsts.new line_ends.new out.new }
{
    let mut codes = [0i32; limits::MAX_CHARACTERS];
    let mut starts = [0usize; limits::MAX_CHARACTERS];
    let mut widths = [0usize; limits::MAX_CHARACTERS];
    let mut places = [0usize; latest::SMALL_CODES];
    let mut stages = [0usize; limits::MAX_COMMANDS];
    let mut firsts = [0i32; limits::MAX_COMMANDS];
    let mut lasts = [0i32; limits::MAX_COMMANDS];
    let mut news = [0i32; limits::MAX_COMMANDS];
    let files = bothfiles::read_files(
        font,
        control,
        &mut codes,
        &mut starts,
        &mut widths,
        &mut places,
        &mut stages,
        &mut firsts,
        &mut lasts,
        &mut news,
    );
    wrap_files(
        line_firsts,
        line_ends,
        out,
        area,
        text,
        limit,
        files,
        font,
        &codes,
        &starts,
        &widths,
        &places,
        &stages,
        &firsts,
        &lasts,
        &news,
    )
}

// 9 for lists under 1,024 entries or a scratch under 32,000 bytes; otherwise the drawing, which leaves anything in the scratch.
fn wrap_tested(
    line_firsts: &mut [usize],
    line_ends: &mut [usize],
    out: &mut [u8],
    scratch: &mut [u8],
    text: &[u8],
    limit: usize,
    font: &[u8],
    control: &[u8],
) -> WrapAnswer
    ensures { WrapOut (draw_wrapped (length line_firsts.old) (length line_ends.old) (length scratch.old) font.now control.now limit text.now) (length line_firsts.old) (length line_ends.old) (length out.old) result line_firsts.new line_ends.new out.new }
{
    if line_firsts.len() < limits::MIN_LINES {
        return refuse(
            line_firsts,
            line_ends,
            out,
            Refusal::of(Reason::AreaTooSmall),
        );
    }
    if line_ends.len() < limits::MIN_LINES {
        return refuse(
            line_firsts,
            line_ends,
            out,
            Refusal::of(Reason::AreaTooSmall),
        );
    }
    if scratch.len() < limits::MIN_SCRATCH {
        return refuse(
            line_firsts,
            line_ends,
            out,
            Refusal::of(Reason::AreaTooSmall),
        );
    }
    wrap_once(
        line_firsts,
        line_ends,
        out,
        scratch,
        text,
        limit,
        font,
        control,
    )
}

// Draws a text by a font and a control file in lines at most `limit` columns wide: 9 for the lists and the scratch, the font's, the control file's, 15, 17, 19,
// then 9 for the output. Each line's first byte and the place behind its last are listed, the drawings follow one another, and the scratch is all zeros
// afterwards.
pub fn draw_wrapped(
    font: &[u8],
    control: &[u8],
    text: &[u8],
    limit: usize,
    scratch: &mut [u8],
    firsts: &mut [usize],
    ends: &mut [usize],
    out: &mut [u8],
) -> WrapAnswer
    ensures wrap_out { WrapOut (draw_wrapped (length firsts.old) (length ends.old) (length scratch.old) font.now control.now limit text.now) (length firsts.old) (length ends.old) (length out.old) result firsts.new ends.new out.new }
    ensures scratch_after { scratch.new ≡ zeros (length scratch.old) }
{
    let answer = wrap_tested(firsts, ends, out, scratch, text, limit, font, control);
    ground::zero_from(scratch, 0);
    answer
}
