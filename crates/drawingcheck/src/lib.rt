// Another program's drawing of a text, checked against the font's.
#![tactic(auto)]

ghost use Rattle.std.specs.Prelude.{◌≡◌, List, ℕ, ◌≤◌, ◌<◌, ◌^◌, length};
ghost use Rattle.ground.specs.Area.{zeros};
ghost use Rattle.ground.specs.Limits.{max_line_width, min_scratch};
ghost use Rattle.flc.specs.Control as flc;
ghost use Rattle.mapping.specs.Passing.{ControlHeld};
ghost use Rattle.source.specs.Source.{Source};
ghost use Rattle.source.specs.Held.{Gives};
ghost use Rattle.drawing.specs.Drawing.{text_codes};
ghost use Rattle.bothfiles.specs.Held.{FilesHeld};
ghost use Rattle.checking.specs.Steps.{tallied};
ghost use Rattle.drawingcheck.specs.CheckDrawing.{checked_from, checked_of, drawing_checked};
ghost use Rattle.drawingcheck.specs.Steps.{GrowsBy, with_chosen, CodesDrawn};

use bothfiles::Files;
use checking::{Tally, Verdict};
use ground::limits;
use ground::refusals::{Reason, Refusal};
use index::latest;
use source::{Chosen, Origin};
use subchars::Mode;

// A text that was drawn for a check: the width of its line, and what is known of the list of overlaps.
#[derive(Clone, Copy)]
pub struct TextChecked {
    pub width: usize,
    pub tally: Tally,
}

// What is known of a list of overlaps with what was chosen for a code, which made a line of n columns one of w.
fn with_chosen(tally: Tally, chosen: Chosen, n: usize, w: usize, overlaps: &[usize]) -> Tally
    requires { (tally.drawn < 2 ^ 63) × (n ≤ max_line_width) × GrowsBy chosen n w }
    ensures { (trace : List ℕ) → tally ≡ tallied overlaps.now trace → result ≡ tallied overlaps.now (with_chosen chosen n w trace) }
{
    match chosen {
        Chosen::Character { width, own: _ } => {
            checking::with_overlap(tally, n + width - w, overlaps)
        }
        Chosen::Nothing => tally,
    }
}

// Joins the characters of a text in turn, from an empty line on, and compares the overlap of each with a list. It stops where the line passes 1,000 columns.
fn check_text(
    area: &mut [u8],
    text: &[u8],
    overlaps: &[usize],
    mode: Mode,
    height: usize,
    font: &[u8],
    origin: Origin,
    codes: &[i32],
    starts: &[usize],
    widths: &[usize],
    places: &[usize],
    commands: usize,
    stages: &[usize],
    firsts: &[i32],
    lasts: &[i32],
    news: &[i32],
) -> TextChecked
    requires gives { (source : Source) × Gives source font.now font.now height origin codes.now starts.now widths.now places.now }
    requires by_index { (control : List ℕ) × ControlHeld control commands stages.now firsts.now lasts.now news.now }
    requires min_scratch_in_bounds { min_scratch ≤ length area.old }
    ensures { (source : Source) → Gives source font.now font.now height origin codes.now starts.now widths.now places.now → (control : List ℕ) (held : ControlHeld control commands stages.now firsts.now lasts.now news.now) → CodesDrawn mode height source (text_codes held.commands held.count text.now) overlaps.now result area.new }
{
    let rows = blocks::row_starts(limits::MAX_LINE_WIDTH, height);
    let limit = limits::MAX_LINE_WIDTH;
    let mut found = [0usize; limits::MAX_HEIGHT];
    let mut tally = checking::none_drawn();
    let mut n: usize = 0;
    let mut i: usize = 0;
    while i < text.len() {
        let picked = drawing::choose_byte(
            text[i], font, font, height, origin, codes, starts, widths, places, commands, stages,
            firsts, lasts, news, &mut found,
        );
        let chosen = picked.chosen;
        let w = drawing::draw_chosen(area, chosen, &found, &rows, n, limit, mode, height, font);
        if limit < w {
            return TextChecked { width: w, tally };
        }
        tally = with_chosen(tally, chosen, n, w, overlaps);
        n = w;
        i += 1;
    }
    TextChecked { width: n, tally }
}

// Checks a drawing by a font and a control file that were read: 15, 16, 25, then what is wrong.
fn check_from(
    area: &mut [u8],
    text: &[u8],
    figure: &[u8],
    overlaps: &[usize],
    mode: Mode,
    height: usize,
    font: &[u8],
    origin: Origin,
    codes: &[i32],
    starts: &[usize],
    widths: &[usize],
    places: &[usize],
    commands: usize,
    stages: &[usize],
    firsts: &[i32],
    lasts: &[i32],
    news: &[i32],
) -> Result<Verdict, Refusal>
    requires gives { (source : Source) × Gives source font.now font.now height origin codes.now starts.now widths.now places.now }
    requires by_index { (control : List ℕ) × ControlHeld control commands stages.now firsts.now lasts.now news.now }
    requires min_scratch_in_bounds { min_scratch ≤ length area.old }
    ensures { (source : Source) → Gives source font.now font.now height origin codes.now starts.now widths.now places.now → (control : List ℕ) → ControlHeld control commands stages.now firsts.now lasts.now news.now → result ≡ checked_from mode height source (flc.control control) text.now overlaps.now figure.now }
{
    if limits::MAX_TEXT < text.len() {
        return Err(Refusal::of(Reason::TextTooLong));
    }
    let drawn = check_text(
        area, text, overlaps, mode, height, font, origin, codes, starts, widths, places, commands,
        stages, firsts, lasts, news,
    );
    let tally = drawn.tally;
    checking::check_line(area, mode, drawn.width, height, tally, overlaps, figure)
}

// Checks a drawing by what reading the files gave; the lists hold it. Nothing is promised of what the area then holds.
fn check_files(
    area: &mut [u8],
    text: &[u8],
    figure: &[u8],
    overlaps: &[usize],
    font: &[u8],
    files: Files,
    codes: &[i32],
    starts: &[usize],
    widths: &[usize],
    places: &[usize],
    stages: &[usize],
    firsts: &[i32],
    lasts: &[i32],
    news: &[i32],
) -> Result<Verdict, Refusal>
    requires by_index { (control : List ℕ) × FilesHeld font.now control files codes.now starts.now widths.now places.now stages.now firsts.now lasts.now news.now }
    requires min_scratch_in_bounds { min_scratch ≤ length area.old }
    ensures { (control : List ℕ) → FilesHeld font.now control files codes.now starts.now widths.now places.now stages.now firsts.now lasts.now news.now → result ≡ checked_of font.now control text.now overlaps.now figure.now }
{
    match files {
        Files::Read {
            header,
            count,
            commands,
        } => check_from(
            area,
            text,
            figure,
            overlaps,
            drawing::mode_of(header),
            header.height,
            font,
            Origin::Font { count },
            codes,
            starts,
            widths,
            places,
            commands,
            stages,
            firsts,
            lasts,
            news,
        ),
        Files::Refused(r) => Err(r),
    }
}

// Reads both files and checks one drawing.
fn check_once(
    area: &mut [u8],
    text: &[u8],
    figure: &[u8],
    overlaps: &[usize],
    font: &[u8],
    control: &[u8],
) -> Result<Verdict, Refusal>
    requires { min_scratch ≤ length area.old }
    ensures { result ≡ checked_of font.now control.now text.now overlaps.now figure.now }
{
    let mut codes = [0i32; limits::MAX_CHARACTERS];
    let mut starts = [0usize; limits::MAX_CHARACTERS];
    let mut widths = [0usize; limits::MAX_CHARACTERS];
    let mut places = [0usize; latest::SMALL_CODES];
    let mut stages = [0usize; limits::MAX_COMMANDS];
    let mut firsts = [0i32; limits::MAX_COMMANDS];
    let mut lasts = [0i32; limits::MAX_COMMANDS];
    let mut news = [0i32; limits::MAX_COMMANDS];
    let files = bothfiles::read_files(
        font,
        control,
        &mut codes,
        &mut starts,
        &mut widths,
        &mut places,
        &mut stages,
        &mut firsts,
        &mut lasts,
        &mut news,
    );
    check_files(
        area, text, figure, overlaps, font, files, &codes, &starts, &widths, &places, &stages,
        &firsts, &lasts, &news,
    )
}

// 9 for a scratch under 32,000 bytes, then as above; the scratch holds anything afterwards.
fn check_tested(
    scratch: &mut [u8],
    text: &[u8],
    figure: &[u8],
    overlaps: &[usize],
    font: &[u8],
    control: &[u8],
) -> Result<Verdict, Refusal>
    ensures { result ≡ drawing_checked (length scratch.old) font.now control.now text.now overlaps.now figure.now }
{
    if scratch.len() < limits::MIN_SCRATCH {
        return Err(Refusal::of(Reason::AreaTooSmall));
    }
    check_once(scratch, text, figure, overlaps, font, control)
}

// Checks a FIGure and a list of overlaps that another program gave for a text: 9 for the scratch, the font's, the control file's, 15, 16, 25, then the first wrong
// overlap, else the first wrong byte. The scratch is all zeros afterwards.
pub fn check_drawing(
    font: &[u8],
    control: &[u8],
    text: &[u8],
    figure: &[u8],
    overlaps: &[usize],
    scratch: &mut [u8],
) -> Result<Verdict, Refusal>
    ensures value { result ≡ drawing_checked (length scratch.old) font.now control.now text.now overlaps.now figure.now }
    ensures scratch_after { scratch.new ≡ zeros (length scratch.old) }
{
    let answer = check_tested(scratch, text, figure, overlaps, font, control);
    ground::zero_from(scratch, 0);
    answer
}
