// What is printed about a check of another program's drawing: the answer, and whether the scratch is all zeros.
ghost use Rattle.std.specs.Prelude.{◌≤◌};

use asking::lent::{MOST_SCRATCH, show_scratch, used_scratch};
use asking::printing::{named, refused, text};
use asking::{behind, load, past_byte, row_of, word_of};
use ground::refusals::Refusal;
use std::io;
use std::rt::Files;
use wattleslate::Verdict;

// The array of which a list of overlaps is lent.
const MOST_OVERLAPS: usize = 1100;

// The overlap that a digit names.
fn digit(x: u8) -> usize {
    x.saturating_sub(b'0') as usize
}

// The overlaps that a word names, a digit each.
fn overlaps_of(word: &[u8]) -> [usize; MOST_OVERLAPS] {
    let mut list = [0usize; MOST_OVERLAPS];
    let n = word.len().min(MOST_OVERLAPS);
    for i in 0..n {
        list[i] = digit(word[i]);
    }
    list
}

// How many there are; `-` names none.
fn count_of(word: &[u8]) -> usize
    ensures { result ≤ 1100 }
{
    if word.starts_with(b"-") {
        return 0;
    }
    word.len().min(MOST_OVERLAPS)
}

fn show_answer(rt: &impl Print, answer: Result<Verdict, Refusal>) -> io::Result<()> {
    match answer {
        Ok(Verdict::Accepted) => text(rt, b"accepted"),
        Ok(Verdict::WrongOverlap(k)) => named(rt, b"wrong overlap ", k),
        Ok(Verdict::WrongByte(place)) => named(rt, b"wrong byte ", place),
        Err(r) => refused(rt, r),
    }
}

// Checks, and shows what came of it.
fn check_in(
    rt: &impl Print,
    font: &[u8],
    control: &[u8],
    t: &[u8],
    figure: &[u8],
    overlaps: &[usize],
    scratch: &mut [u8],
) -> io::Result<()> {
    show_answer(
        rt,
        wattleslate::check_drawing(font, control, t, figure, overlaps, scratch),
    )?;
    show_scratch(rt, scratch)
}

// Checks with a list and in a scratch of some size.
fn check(
    rt: &impl Print,
    font: &[u8],
    control: &[u8],
    t: &[u8],
    figure: &[u8],
    list: &[u8],
    size: usize,
) -> io::Result<()>
    requires { size ≤ 32001 }
{
    let overlaps = overlaps_of(list);
    let mut scratch = used_scratch();
    check_in(
        rt,
        font,
        control,
        t,
        figure,
        &overlaps[..count_of(list)],
        &mut scratch[..size],
    )
}

// The words are a control file, a scratch's size and a list of overlaps; the rest of the line is the text.
pub(crate) fn show_check(
    rt: &(impl Files + Print),
    font: &[u8],
    figure: &[u8],
    words: &[u8],
) -> io::Result<()> {
    let mut buffer = [0u8; 16385];
    let n = load(rt, word_of(words), &mut buffer);
    let second = behind(words);
    let third = behind(second);
    let size = row_of(word_of(second)).min(MOST_SCRATCH);
    check(
        rt,
        font,
        &buffer[..n],
        past_byte(behind(third)),
        figure,
        word_of(third),
        size,
    )
}
