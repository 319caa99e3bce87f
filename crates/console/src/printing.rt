// What is printed of one line: its rows, or its refusal.
ghost use Rattle.std.specs.Prelude.{◌≡◌, List, ℕ, ◌≤◌, length};
ghost use Rattle.ground.specs.Limits.{min_scratch};
ghost use Rattle.bothfiles.specs.Held.{FilesHeld};
ghost use Rattle.console.specs.Rows.{height_of, RowsFit};

use bothfiles::Files;
use drawing::DrawAnswer;
use ground::limits;
use ground::refusals::{Reason, Refusal};
use std::io;

// Room for the largest output: 32 rows of 1,000 columns, each with its LF.
const ROOM: usize = limits::MAX_HEIGHT * (limits::MAX_LINE_WIDTH + 1);

// "A refused line prints `refused`, a blank, the number, ` at `, the place, LF."
fn print_refusal(rt: &impl Print, r: Refusal) -> io::Result<()> {
    println!(rt; "refused {} at {}", r.reason.number(), r.place)
}

fn height_of(files: Files) -> usize
    ensures { result ≡ height_of files }
{
    match files {
        Files::Read {
            header,
            count: _,
            commands: _,
        } => header.height,
        Files::Refused(_) => 0,
    }
}

// The rows of a line w wide, which lie at the start of the output.
fn print_rows(rt: &impl Print, out: &[u8], files: Files, w: usize) -> io::Result<()>
    requires { RowsFit files w (length out.now) }
{
    let h = height_of(files);
    let n = h * (w + 1);
    rt.write_all(&out[..n])
}

// Draws a line into an output that has room for every line, and prints it.
fn print_wide(
    rt: &impl Print,
    area: &mut [u8],
    text: &[u8],
    font: &[u8],
    files: Files,
    codes: &[i32],
    starts: &[usize],
    widths: &[usize],
    places: &[usize],
    stages: &[usize],
    firsts: &[i32],
    lasts: &[i32],
    news: &[i32],
) -> io::Result<()>
    requires by_index { (control : List ℕ) × FilesHeld font.now control files codes.now starts.now widths.now places.now stages.now firsts.now lasts.now news.now }
    requires min_scratch_in_bounds { min_scratch ≤ length area.old }
{
    let mut out = [0u8; ROOM];
    match bothfiles::draw_line(
        &mut out, area, text, font, files, codes, starts, widths, places, stages, firsts, lasts,
        news,
    ) {
        DrawAnswer::Drawn { width, counts: _ } => print_rows(rt, &out, files, width),
        DrawAnswer::Refused(r) => print_refusal(rt, r),
    }
}

// Draws a line and prints it. An output with too little room is no refusal of the line: it is drawn again with more.
pub(crate) fn print_line(
    rt: &impl Print,
    out: &mut [u8],
    area: &mut [u8],
    text: &[u8],
    font: &[u8],
    files: Files,
    codes: &[i32],
    starts: &[usize],
    widths: &[usize],
    places: &[usize],
    stages: &[usize],
    firsts: &[i32],
    lasts: &[i32],
    news: &[i32],
) -> io::Result<()>
    requires by_index { (control : List ℕ) × FilesHeld font.now control files codes.now starts.now widths.now places.now stages.now firsts.now lasts.now news.now }
    requires min_scratch_in_bounds { min_scratch ≤ length area.old }
{
    match bothfiles::draw_line(
        out, area, text, font, files, codes, starts, widths, places, stages, firsts, lasts, news,
    ) {
        DrawAnswer::Drawn { width, counts: _ } => print_rows(rt, out, files, width),
        DrawAnswer::Refused(r) => {
            if r.reason == Reason::AreaTooSmall {
                print_wide(
                    rt, area, text, font, files, codes, starts, widths, places, stages, firsts,
                    lasts, news,
                )
            } else {
                print_refusal(rt, r)
            }
        }
    }
}
