// The input, part by part, and the lines of each part.
ghost use Rattle.std.specs.Prelude.{List, ℕ, ◌≤◌, length, IfOk};
ghost use Rattle.ground.specs.Limits.{min_scratch};
ghost use Rattle.cutting.specs.Parts.{most_kept};
ghost use Rattle.bothfiles.specs.Held.{FilesHeld};

use crate::printing::print_line;
use bothfiles::Files;
use cutting::Step;
use ground::limits;
use std::io;
use std::io::{ErrorKind, Read};

// Prints the lines that end in a part, where `held` bytes are kept of the line that it goes on with. Answers how many are kept of the line
// that it leaves begun.
fn print_part(
    rt: &impl Print,
    part: &[u8],
    line: &mut [u8],
    held: usize,
    out: &mut [u8],
    area: &mut [u8],
    font: &[u8],
    files: Files,
    codes: &[i32],
    starts: &[usize],
    widths: &[usize],
    places: &[usize],
    stages: &[usize],
    firsts: &[i32],
    lasts: &[i32],
    news: &[i32],
) -> io::Result<usize>
    requires by_index { (control : List ℕ) × FilesHeld font.now control files codes.now starts.now widths.now places.now stages.now firsts.now lasts.now news.now }
    requires held_le_most_kept { (held ≤ most_kept) × (most_kept ≤ length line.old) × (min_scratch ≤ length area.old) }
    ensures { IfOk result (λ n. n ≤ most_kept) }
{
    let mut at: usize = 0;
    let mut n = held;
    loop {
        match cutting::next_line(line, n, &part[at..]) {
            Step::Ended { held: m, next } => {
                let text = &line[..m];
                print_line(
                    rt, out, area, text, font, files, codes, starts, widths, places, stages,
                    firsts, lasts, news,
                )?;
                at += next;
                n = 0;
            }
            Step::Begun { held: m } => {
                return Ok(m);
            }
        }
    }
}

// Prints the line that the end of the input leaves begun: "a last one without LF counts".
fn print_last(
    rt: &impl Print,
    line: &[u8],
    held: usize,
    out: &mut [u8],
    area: &mut [u8],
    font: &[u8],
    files: Files,
    codes: &[i32],
    starts: &[usize],
    widths: &[usize],
    places: &[usize],
    stages: &[usize],
    firsts: &[i32],
    lasts: &[i32],
    news: &[i32],
) -> io::Result<()>
    requires by_index { (control : List ℕ) × FilesHeld font.now control files codes.now starts.now widths.now places.now stages.now firsts.now lasts.now news.now }
    requires held_in_bounds { (held ≤ length line.now) × (min_scratch ≤ length area.old) }
{
    if 0 < held {
        let text = &line[..held];
        print_line(
            rt, out, area, text, font, files, codes, starts, widths, places, stages, firsts, lasts,
            news,
        )?;
    }
    Ok(())
}

// Prints each line of the input that ends, by areas lent for its parts, its lines and their drawing. Answers how many bytes are kept of a line
// begun at the end. Nothing says that an input ends, so the reads are counted up to a number that no run reaches.
fn print_reads(
    rt: &impl Print,
    input: &mut impl Read,
    part: &mut [u8],
    line: &mut [u8],
    out: &mut [u8],
    area: &mut [u8],
    font: &[u8],
    files: Files,
    codes: &[i32],
    starts: &[usize],
    widths: &[usize],
    places: &[usize],
    stages: &[usize],
    firsts: &[i32],
    lasts: &[i32],
    news: &[i32],
) -> io::Result<usize>
    requires by_index { (control : List ℕ) × FilesHeld font.now control files codes.now starts.now widths.now places.now stages.now firsts.now lasts.now news.now }
    requires most_kept_in_bounds { (most_kept ≤ length line.old) × (min_scratch ≤ length area.old) }
    ensures { IfOk result (λ n. n ≤ most_kept) }
{
    let mut held: usize = 0;
    for _ in 0..u64::MAX {
        match input.read(part) {
            Ok(0) => break,
            Ok(n) => {
                let got = &part[..n];
                held = print_part(
                    rt, got, line, held, out, area, font, files, codes, starts, widths, places,
                    stages, firsts, lasts, news,
                )?;
            }
            Err(e) if e.kind() == ErrorKind::Interrupted => {}
            Err(e) => return Err(e),
        }
    }
    Ok(held)
}

// Prints each line of the input.
pub(crate) fn print_input(
    rt: &impl Print,
    input: &mut impl Read,
    font: &[u8],
    files: Files,
    codes: &[i32],
    starts: &[usize],
    widths: &[usize],
    places: &[usize],
    stages: &[usize],
    firsts: &[i32],
    lasts: &[i32],
    news: &[i32],
) -> io::Result<()>
    requires { (control : List ℕ) × FilesHeld font.now control files codes.now starts.now widths.now places.now stages.now firsts.now lasts.now news.now }
{
    let mut part = [0u8; 2048];
    let mut line = [0u8; cutting::MOST_KEPT];
    let mut out = [0u8; 2048];
    let mut area = [0u8; limits::MIN_SCRATCH];
    let held = print_reads(
        rt, input, &mut part, &mut line, &mut out, &mut area, font, files, codes, starts, widths,
        places, stages, firsts, lasts, news,
    )?;
    print_last(
        rt, &line, held, &mut out, &mut area, font, files, codes, starts, widths, places, stages,
        firsts, lasts, news,
    )
}
