// Two texts drawn by a font and a control file, one line above the other.
#![tactic(auto)]

ghost use Rattle.std.specs.Prelude.{◌≡◌, List, ℕ, ◌≤◌, length};
ghost use Rattle.ground.specs.Area.{zeros};
ghost use Rattle.ground.specs.Limits.{min_stacked_scratch};
ghost use Rattle.bothfiles.specs.Held.{FilesHeld};
ghost use Rattle.twolines.specs.TwoLines.{lines_of, draw_lines, LinesOut};

use bothfiles::Files;
use ground::limits;
use ground::refusals::{Reason, Refusal};
use index::latest;
use twolines::LinesAnswer;

// Draws two texts by what reading the files gave; the lists hold it.
fn draw_files(
    out: &mut [u8],
    scratch: &mut [u8],
    upper: &[u8],
    lower: &[u8],
    font: &[u8],
    files: Files,
    codes: &[i32],
    starts: &[usize],
    widths: &[usize],
    places: &[usize],
    stages: &[usize],
    firsts: &[i32],
    lasts: &[i32],
    news: &[i32],
) -> LinesAnswer
    requires by_index { (control : List ℕ) × FilesHeld font.now control files codes.now starts.now widths.now places.now stages.now firsts.now lasts.now news.now }
    requires min_stacked_scratch_in_bounds { min_stacked_scratch ≤ length scratch.old }
    ensures { (control : List ℕ) → FilesHeld font.now control files codes.now starts.now widths.now places.now stages.now firsts.now lasts.now news.now → LinesOut (lines_of font.now control upper.now lower.now) (length out.old) result out.new }
{
    match files {
        Files::Read {
            header,
            count,
            commands,
        } => twolines::draw_texts(
            out, scratch, upper, lower, font, header, count, codes, starts, widths, places,
            commands, stages, firsts, lasts, news,
        ),
        Files::Refused(r) => twolines::refuse(r, out),
    }
}

// Reads both files and draws the two texts.
fn draw_once(
    out: &mut [u8],
    scratch: &mut [u8],
    upper: &[u8],
    lower: &[u8],
    font: &[u8],
    control: &[u8],
) -> LinesAnswer
    requires { min_stacked_scratch ≤ length scratch.old }
    ensures { LinesOut (lines_of font.now control.now upper.now lower.now) (length out.old) result out.new }
{
    let mut codes = [0i32; limits::MAX_CHARACTERS];
    let mut starts = [0usize; limits::MAX_CHARACTERS];
    let mut widths = [0usize; limits::MAX_CHARACTERS];
    let mut places = [0usize; latest::SMALL_CODES];
    let mut stages = [0usize; limits::MAX_COMMANDS];
    let mut firsts = [0i32; limits::MAX_COMMANDS];
    let mut lasts = [0i32; limits::MAX_COMMANDS];
    let mut news = [0i32; limits::MAX_COMMANDS];
    let files = bothfiles::read_files(
        font,
        control,
        &mut codes,
        &mut starts,
        &mut widths,
        &mut places,
        &mut stages,
        &mut firsts,
        &mut lasts,
        &mut news,
    );
    draw_files(
        out, scratch, upper, lower, font, files, &codes, &starts, &widths, &places, &stages,
        &firsts, &lasts, &news,
    )
}

// 9 for a scratch under 64,000 bytes; otherwise the drawing, which leaves anything in the scratch.
fn draw_tested(
    out: &mut [u8],
    scratch: &mut [u8],
    upper: &[u8],
    lower: &[u8],
    font: &[u8],
    control: &[u8],
) -> LinesAnswer
    ensures { LinesOut (draw_lines (length scratch.old) font.now control.now upper.now lower.now) (length out.old) result out.new }
{
    if scratch.len() < limits::MIN_STACKED_SCRATCH {
        return twolines::refuse(Refusal::of(Reason::AreaTooSmall), out);
    }
    draw_once(out, scratch, upper, lower, font, control)
}

// Draws two texts by a font and a control file, the second under the first: 9 for the scratch, the font's, the control file's, 15, 16, then 9 for the output. The
// scratch is all zeros afterwards.
pub fn draw_stacked(
    font: &[u8],
    control: &[u8],
    upper: &[u8],
    lower: &[u8],
    scratch: &mut [u8],
    out: &mut [u8],
) -> LinesAnswer
    ensures lines_out { LinesOut (draw_lines (length scratch.old) font.now control.now upper.now lower.now) (length out.old) result out.new }
    ensures scratch_after { scratch.new ≡ zeros (length scratch.old) }
{
    let answer = draw_tested(out, scratch, upper, lower, font, control);
    ground::zero_from(scratch, 0);
    answer
}
