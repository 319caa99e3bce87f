// The lines of a text: each is sought by drawing it, kept where it may end, and put out.
#![tactic(auto)]

ghost use Rattle.std.specs.Prelude.{◌≡◌, true, cond, List, ◌++◌, ℕ, ◌+◌, ◌*◌, ◌<◌, ◌≤◌, eqb, length, take};
ghost use Rattle.ground.specs.Limits.{max_text, max_line_width, max_height, min_lines, min_scratch};
ghost use Rattle.blocks.specs.Block.{Block};
ghost use Rattle.blocks.specs.Writing.{Like};
ghost use Rattle.showing.specs.Output.{shown};
ghost use Rattle.showing.specs.Scratch.{scratch_line};
ghost use Rattle.source.specs.Source.{Choice};
ghost use Rattle.source.specs.Steps.{ChosenAs};
ghost use Rattle.breaks.specs.Breaking.{spans_of};
ghost use Rattle.spans.specs.Spans.{line_by, wide_in, drawings, too_wide};
ghost use Rattle.breaks.specs.Steps.{NoneWider, last_behind, Opens};
ghost use Rattle.spans.specs.Steps.{DrawsBy, MeasuredAs, KeptAs, SoughtFrom, Ready, SpanDrawn, PutAs};

use ground::limits;
use source::{Chosen, Origin};
use subchars::Mode;

// How the lines of a text are drawn: the limit, the mode and the height of the font's characters, and how many characters and commands the lists hold.
#[derive(Clone, Copy)]
pub struct Drawer {
    pub limit: usize,
    pub mode: Mode,
    pub height: usize,
    pub count: usize,
    pub commands: usize,
}

// A text whose bytes were looked up: where the first stands that is too wide, or the text's length; and how many up to there are not in the font.
#[derive(Clone, Copy)]
pub struct Measured {
    pub place: usize,
    pub missing: usize,
}

// What was kept of a line while it was sought: where the drawing in the output ends (where the line starts: there is none) and how wide it is; and how many columns
// were put out for the line in all.
#[derive(Clone, Copy)]
pub struct Kept {
    pub end: usize,
    pub width: usize,
    pub columns: usize,
}

// A line that was sought: where it ends, how far the text was drawn, and how wide that is; and what was kept of it.
#[derive(Clone, Copy)]
pub struct Sought {
    pub end: usize,
    pub at: usize,
    pub width: usize,
    pub kept: Kept,
}

// A line that was drawn: where it ends, how wide it is, and whether it stands in the output.
#[derive(Clone, Copy)]
pub struct DrawnSpan {
    pub end: usize,
    pub width: usize,
    pub put: bool,
}

// Lines that were put out: how many, and how many bytes their drawings have; or the output has no room for them.
#[derive(Clone, Copy)]
pub enum LinesPut {
    Put { lines: usize, bytes: usize },
    NoRoom,
}

// Whether a byte is a single character other than a blank that is wider than the limit.
fn too_wide(limit: usize, byte: u8, chosen: Chosen) -> bool
    ensures { (s starts : List ℕ) (h : ℕ) (x : Choice) → ChosenAs s starts h chosen x → result ≡ too_wide limit byte x }
{
    match chosen {
        Chosen::Character { width, own: _ } => {
            if byte == b' ' {
                return false;
            }
            limit < width
        }
        Chosen::Nothing => false,
    }
}

// The width of what was chosen.
fn width_of(chosen: Chosen) -> usize {
    match chosen {
        Chosen::Character { width, own: _ } => width,
        Chosen::Nothing => 0,
    }
}

// Looks up each byte of a text, counts what is replaced and notes each byte's width. It stops at the first that is too wide.
pub fn measure(
    wide: &mut [usize],
    text: &[u8],
    drawer: Drawer,
    font: &[u8],
    codes: &[i32],
    starts: &[usize],
    widths: &[usize],
    places: &[usize],
    stages: &[usize],
    firsts: &[i32],
    lasts: &[i32],
    news: &[i32],
) -> Measured
    requires draws_by { DrawsBy drawer font.now codes.now starts.now widths.now places.now stages.now firsts.now lasts.now news.now }
    requires text_in_bounds { length text.now ≤ length wide.old }
    ensures { (x : DrawsBy drawer font.now codes.now starts.now widths.now places.now stages.now firsts.now lasts.now news.now) → MeasuredAs x.source x.held.commands x.held.count drawer.limit text.now result }
{
    let mut found = [0usize; limits::MAX_HEIGHT];
    let mut missing: usize = 0;
    let mut i: usize = 0;
    while i < text.len() {
        let picked = drawing::choose_byte(
            text[i],
            font,
            font,
            drawer.height,
            Origin::Font {
                count: drawer.count,
            },
            codes,
            starts,
            widths,
            places,
            drawer.commands,
            stages,
            firsts,
            lasts,
            news,
            &mut found,
        );
        let chosen = picked.chosen;
        if too_wide(drawer.limit, text[i], chosen) {
            return Measured { place: i, missing };
        }
        missing = source::count_missing(missing, chosen);
        wide[i] = width_of(chosen);
        i += 1;
    }
    Measured { place: i, missing }
}

// A line that starts at b, where the text was drawn up to a place: it ends behind the last word that ended by then; where none has, the first is broken there.
fn line_sought(b: usize, last: usize, at: usize, width: usize, kept: Kept) -> Sought
    ensures { result ≡ record { end = cond (eqb last b) at last; at = at; width = width; kept = kept } }
{
    let end = if last == b { at } else { last };
    Sought {
        end,
        at,
        width,
        kept,
    }
}

// Puts out the line w wide that the area holds, from a place of the output on.
fn put_line(out: &mut [u8], at: usize, area: &[u8], mode: Mode, w: usize, height: usize)
    requires { (height ≤ max_height) × (w ≤ max_line_width) × (min_scratch ≤ length area.now) × (at + height * (w + 1) ≤ length out.old) }
    ensures { (line : Block) → Like height (scratch_line mode.direction w area.now) line → take (at + height * (w + 1)) out.new ≡ take at out.old ++ shown mode.hardblank.0 height line }
{
    let direction = mode.direction;
    let hardblank = mode.hardblank;
    let from = showing::line_start(direction, w);
    showing::show_rows(&mut out[at..], area, from, w, hardblank, height);
}

// Nothing is kept of a line that starts at b.
fn nothing_kept(b: usize) -> Kept
    ensures { result.end ≡ b }
{
    Kept {
        end: b,
        width: 0,
        columns: 0,
    }
}

// Whether the next word, with the blanks before it, may be wider than the room behind a word that ends at place e. The characters' widths are added up as if none
// overlapped: where it is false, the word fits.
fn may_not_fit(text: &[u8], wide: &[usize], e: usize, stop: usize, room: usize) -> bool
    requires { (stop ≤ length text.now) × (stop ≤ length wide.now) }
{
    let mut left = room;
    let mut i = e;
    while i < stop {
        let w = wide[i];
        if left < w {
            return true;
        }
        left -= w;
        i += 1;
        if breaks::ends_word(text, i) {
            return false;
        }
    }
    false
}

// Whether a line that is n wide at place e is worth keeping: a word ends there, the next one may not fit, and no more columns were put out for the line than it is
// wide, so that all that is put out for a line is at most twice the line.
fn worth_keeping(
    text: &[u8],
    wide: &[usize],
    e: usize,
    stop: usize,
    last: usize,
    n: usize,
    kept: Kept,
    limit: usize,
) -> bool
    requires { (stop ≤ length text.now) × (stop ≤ length wide.now) × (n ≤ limit) }
    ensures { result ≡ true → kept.columns ≤ n }
{
    if last != e {
        return false;
    }
    if n < kept.columns {
        return false;
    }
    may_not_fit(text, wide, e, stop, limit - n)
}

// Keeps a line that is n wide at place e, as the area holds it, at its place in the output, where that is worth it and the output has room.
fn keep_line(
    out: &mut [u8],
    at: usize,
    area: &[u8],
    text: &[u8],
    wide: &[usize],
    e: usize,
    stop: usize,
    last: usize,
    n: usize,
    kept: Kept,
    drawer: Drawer,
) -> Kept
    requires stop_in_bounds { (stop ≤ length text.now) × (stop ≤ length wide.now) × (n ≤ drawer.limit) × (drawer.limit ≤ max_line_width) }
    requires height_le_max_height { (drawer.height ≤ max_height) × (min_scratch ≤ length area.now) × (at ≤ length out.old) }
    ensures out_unchanged { take at out.new ≡ take at out.old }
    ensures by_index { (line : ℕ → Block) (b : ℕ) → Like drawer.height (scratch_line drawer.mode.direction n area.now) (line e) → KeptAs drawer.mode drawer.height line b at kept out.old → KeptAs drawer.mode drawer.height line b at result out.new }
{
    if !worth_keeping(text, wide, e, stop, last, n, kept, drawer.limit) {
        return kept;
    }
    let need = drawer.height * (n + 1);
    if out.len() - at < need {
        return kept;
    }
    let mode = drawer.mode;
    put_line(out, at, area, mode, n, drawer.height);
    Kept {
        end: e,
        width: n,
        columns: kept.columns + n,
    }
}

// Draws the text from b on as far as it fits, at most up to its last word's end, and finds where the line ends that starts at b. What may be the line is kept at its
// place in the output.
fn seek_end(
    out: &mut [u8],
    at: usize,
    area: &mut [u8],
    text: &[u8],
    wide: &[usize],
    b: usize,
    stop: usize,
    drawer: Drawer,
    font: &[u8],
    codes: &[i32],
    starts: &[usize],
    widths: &[usize],
    places: &[usize],
    stages: &[usize],
    firsts: &[i32],
    lasts: &[i32],
    news: &[i32],
) -> Sought
    requires draws_by { DrawsBy drawer font.now codes.now starts.now widths.now places.now stages.now firsts.now lasts.now news.now }
    requires limit_le_max_line_width { (drawer.limit ≤ max_line_width) × (min_scratch ≤ length area.old) × (at ≤ length out.old) × (length text.now ≤ length wide.now) }
    requires b_lt_stop { (b < stop) × (stop ≡ last_behind text.now) }
    ensures out_unchanged { take at out.new ≡ take at out.old }
    ensures b_le_end { (b ≤ result.end) × (result.end ≤ result.at) × (result.at ≤ length text.now) × (result.width ≤ drawer.limit) }
    ensures sought_from { (x : DrawsBy drawer font.now codes.now starts.now widths.now places.now stages.now firsts.now lasts.now news.now) → Opens (wide_in (line_by drawer.mode drawer.height x.source x.held.commands x.held.count) text.now) drawer.limit text.now b → SoughtFrom drawer.mode drawer.height (line_by drawer.mode drawer.height x.source x.held.commands x.held.count) drawer.limit text.now b at result area.new out.new }
{
    let limit = drawer.limit;
    let mode = drawer.mode;
    let height = drawer.height;
    let rows = blocks::row_starts(limits::MAX_LINE_WIDTH, height);
    let mut found = [0usize; limits::MAX_HEIGHT];
    let mut n: usize = 0;
    let mut last = b;
    let mut kept = nothing_kept(b);
    let mut i = b;
    while i < stop {
        let picked = drawing::choose_byte(
            text[i],
            font,
            font,
            height,
            Origin::Font {
                count: drawer.count,
            },
            codes,
            starts,
            widths,
            places,
            drawer.commands,
            stages,
            firsts,
            lasts,
            news,
            &mut found,
        );
        let chosen = picked.chosen;
        let w = drawing::draw_chosen(area, chosen, &found, &rows, n, limit, mode, height, font);
        if limit < w {
            return line_sought(b, last, i, n, kept);
        }
        n = w;
        i += 1;
        last = breaks::last_end(text, i, last);
        kept = keep_line(out, at, area, text, wide, i, stop, last, n, kept, drawer);
    }
    line_sought(b, last, i, n, kept)
}

// Draws a line again where more of the text than the line was drawn and the line was not kept, so that the area holds the line and nothing else.
fn finish_span(
    area: &mut [u8],
    text: &[u8],
    b: usize,
    sought: Sought,
    drawer: Drawer,
    font: &[u8],
    codes: &[i32],
    starts: &[usize],
    widths: &[usize],
    places: &[usize],
    stages: &[usize],
    firsts: &[i32],
    lasts: &[i32],
    news: &[i32],
) -> DrawnSpan
    requires draws_by { DrawsBy drawer font.now codes.now starts.now widths.now places.now stages.now firsts.now lasts.now news.now }
    requires limit_le_max_line_width { (drawer.limit ≤ max_line_width) × (min_scratch ≤ length area.old) }
    requires b_le_end { (b ≤ sought.end) × (sought.end ≤ sought.at) × (sought.at ≤ length text.now) × (sought.width ≤ drawer.limit) }
    ensures end_value { result.end ≡ sought.end }
    ensures by_index { (x : DrawsBy drawer font.now codes.now starts.now widths.now places.now stages.now firsts.now lasts.now news.now) → Opens (wide_in (line_by drawer.mode drawer.height x.source x.held.commands x.held.count) text.now) drawer.limit text.now b → ((at : ℕ) (out : List ℕ) → SoughtFrom drawer.mode drawer.height (line_by drawer.mode drawer.height x.source x.held.commands x.held.count) drawer.limit text.now b at sought area.old out → SpanDrawn drawer.mode drawer.height (line_by drawer.mode drawer.height x.source x.held.commands x.held.count) drawer.limit text.now b at result area.new out) }
{
    let end = sought.end;
    let kept = sought.kept;
    if end == kept.end {
        let width = kept.width;
        let put = true;
        return DrawnSpan { end, width, put };
    }
    let put = false;
    if end == sought.at {
        let width = sought.width;
        return DrawnSpan { end, width, put };
    }
    let mode = drawer.mode;
    let drawn = drawing::join_text(
        area,
        &text[b..end],
        drawer.limit,
        mode,
        drawer.height,
        font,
        font,
        Origin::Font {
            count: drawer.count,
        },
        codes,
        starts,
        widths,
        places,
        drawer.commands,
        stages,
        firsts,
        lasts,
        news,
    );
    let width = drawn.width;
    DrawnSpan { end, width, put }
}

// Draws the line that starts at b into the area, or to its place in the output.
fn draw_span(
    out: &mut [u8],
    at: usize,
    area: &mut [u8],
    text: &[u8],
    wide: &[usize],
    b: usize,
    stop: usize,
    drawer: Drawer,
    font: &[u8],
    codes: &[i32],
    starts: &[usize],
    widths: &[usize],
    places: &[usize],
    stages: &[usize],
    firsts: &[i32],
    lasts: &[i32],
    news: &[i32],
) -> DrawnSpan
    requires draws_by { DrawsBy drawer font.now codes.now starts.now widths.now places.now stages.now firsts.now lasts.now news.now }
    requires limit_le_max_line_width { (drawer.limit ≤ max_line_width) × (min_scratch ≤ length area.old) × (at ≤ length out.old) × (length text.now ≤ length wide.now) }
    requires b_lt_stop { (b < stop) × (stop ≡ last_behind text.now) }
    ensures out_unchanged { take at out.new ≡ take at out.old }
    ensures span_drawn { (x : DrawsBy drawer font.now codes.now starts.now widths.now places.now stages.now firsts.now lasts.now news.now) → Opens (wide_in (line_by drawer.mode drawer.height x.source x.held.commands x.held.count) text.now) drawer.limit text.now b → SpanDrawn drawer.mode drawer.height (line_by drawer.mode drawer.height x.source x.held.commands x.held.count) drawer.limit text.now b at result area.new out.new }
{
    let sought = seek_end(
        out, at, area, text, wide, b, stop, drawer, font, codes, starts, widths, places, stages,
        firsts, lasts, news,
    );
    finish_span(
        area, text, b, sought, drawer, font, codes, starts, widths, places, stages, firsts, lasts,
        news,
    )
}

// Puts a line out from a place of the output on, unless it stands there.
fn put_span(out: &mut [u8], at: usize, area: &[u8], mode: Mode, line: DrawnSpan, height: usize)
    requires { (height ≤ max_height) × (line.width ≤ max_line_width) × (min_scratch ≤ length area.now) × (at + height * (line.width + 1) ≤ length out.old) }
    ensures { (drawn : Block) → Ready mode height drawn line at area.now out.old → take (at + height * (line.width + 1)) out.new ≡ take at out.old ++ shown mode.hardblank.0 height drawn }
{
    if line.put {
        return;
    }
    put_line(out, at, area, mode, line.width, height);
}

// Draws the lines of a text one after another, lists their places and puts them out, as far as the output has room.
pub fn put_lines(
    line_firsts: &mut [usize],
    line_ends: &mut [usize],
    out: &mut [u8],
    area: &mut [u8],
    text: &[u8],
    wide: &[usize],
    drawer: Drawer,
    font: &[u8],
    codes: &[i32],
    starts: &[usize],
    widths: &[usize],
    places: &[usize],
    stages: &[usize],
    firsts: &[i32],
    lasts: &[i32],
    news: &[i32],
) -> LinesPut
    requires none_wider { (x : DrawsBy drawer font.now codes.now starts.now widths.now places.now stages.now firsts.now lasts.now news.now) × NoneWider (wide_in (line_by drawer.mode drawer.height x.source x.held.commands x.held.count) text.now) drawer.limit text.now }
    requires limit_le_max_line_width { (drawer.limit ≤ max_line_width) × (min_scratch ≤ length area.old) × (length text.now ≤ max_text) × (length text.now ≤ length wide.now) }
    requires min_lines_in_bounds { (min_lines ≤ length line_firsts.old) × (min_lines ≤ length line_ends.old) }
    ensures { (x : DrawsBy drawer font.now codes.now starts.now widths.now places.now stages.now firsts.now lasts.now news.now) → NoneWider (wide_in (line_by drawer.mode drawer.height x.source x.held.commands x.held.count) text.now) drawer.limit text.now → PutAs (spans_of (wide_in (line_by drawer.mode drawer.height x.source x.held.commands x.held.count) text.now) drawer.limit text.now) (drawings drawer.mode.hardblank.0 drawer.height (line_by drawer.mode drawer.height x.source x.held.commands x.held.count) text.now) (length out.old) result line_firsts.new line_ends.new out.new }
{
    let mode = drawer.mode;
    let stop = breaks::last_behind(text);
    let mut p: usize = 0;
    let mut lines: usize = 0;
    let mut bytes: usize = 0;
    while p < stop {
        let b = breaks::word_from(text, p);
        let line = draw_span(
            out, bytes, area, text, wide, b, stop, drawer, font, codes, starts, widths, places,
            stages, firsts, lasts, news,
        );
        let need = drawer.height * (line.width + 1);
        if out.len() - bytes < need {
            return LinesPut::NoRoom;
        }
        put_span(out, bytes, area, mode, line, drawer.height);
        line_firsts[lines] = b;
        line_ends[lines] = line.end;
        lines += 1;
        bytes += need;
        p = line.end;
    }
    LinesPut::Put { lines, bytes }
}
