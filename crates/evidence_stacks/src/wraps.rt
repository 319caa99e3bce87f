// What is printed about a text in lines: the answer, where each line starts and ends, all of the output, and whether what is left of the lists and the scratch
// are all zeros.
ghost use Rattle.std.specs.Prelude.{◌≤◌};

use asking::lent::{MOST_ROOM, MOST_SCRATCH, show_output, show_scratch, used_output, used_scratch};
use asking::printing::{counted, named, refused, text};
use asking::{behind, load, past_byte, row_of, word_of};
use std::io;
use std::rt::Files;
use wattleslate::WrapAnswer;

// The array of which a list is lent.
const MOST_LINES: usize = 1025;

// A list that holds something before it is written to.
fn used_list() -> [usize; MOST_LINES] {
    [9usize; MOST_LINES]
}

// Tells the answer, and gives how many lines there are.
fn show_answer(rt: &impl Print, answer: WrapAnswer) -> io::Result<usize> {
    match answer {
        WrapAnswer::Wrapped { lines, counts } => {
            named(rt, b"lines ", lines)?;
            counted(rt, counts.stood_in, counts.nothing_drawn)?;
            Ok(lines)
        }
        WrapAnswer::Refused(r) => {
            refused(rt, r)?;
            Ok(0)
        }
    }
}

// A place of a list, as far as the list has it.
fn place_at(rt: &impl Print, name: &[u8], list: &[usize], i: usize) -> io::Result<()> {
    if let Some(place) = list.get(i) {
        named(rt, name, *place)?;
    }
    Ok(())
}

// The i-th line: its first byte, and the place behind its last.
fn line_at(rt: &impl Print, firsts: &[usize], ends: &[usize], i: usize) -> io::Result<()> {
    place_at(rt, b", ", firsts, i)?;
    place_at(rt, b" to ", ends, i)
}

fn show_places(rt: &impl Print, firsts: &[usize], ends: &[usize], n: usize) -> io::Result<()> {
    for i in 0..n {
        line_at(rt, firsts, ends, i)?;
    }
    Ok(())
}

// Whether a list is all zeros from place n on.
fn zeros_from(list: &[usize], n: usize) -> bool {
    list.iter().skip(n).all(|place| *place == 0)
}

// Tells whether the lists are all zeros behind the first n places.
fn show_rest(rt: &impl Print, firsts: &[usize], ends: &[usize], n: usize) -> io::Result<()> {
    if zeros_from(firsts, n) && zeros_from(ends, n) {
        return text(rt, b", then zeros");
    }
    text(rt, b", then NOT all zeros")
}

// Draws, and shows what came of it.
fn draw_in(
    rt: &impl Print,
    font: &[u8],
    control: &[u8],
    t: &[u8],
    limit: usize,
    scratch: &mut [u8],
    firsts: &mut [usize],
    ends: &mut [usize],
    out: &mut [u8],
) -> io::Result<()> {
    let answer = wattleslate::draw_wrapped(font, control, t, limit, scratch, firsts, ends, out);
    let n = show_answer(rt, answer)?;
    show_places(rt, firsts, ends, n)?;
    show_rest(rt, firsts, ends, n)?;
    show_output(rt, out)?;
    show_scratch(rt, scratch)
}

// Draws in areas of some size.
fn draw(
    rt: &impl Print,
    font: &[u8],
    control: &[u8],
    t: &[u8],
    limit: usize,
    first_room: usize,
    end_room: usize,
    size: usize,
    room: usize,
) -> io::Result<()>
    requires { (first_room ≤ 1025) × (end_room ≤ 1025) × (size ≤ 32001) × (room ≤ 2100) }
{
    let mut scratch = used_scratch();
    let mut firsts = used_list();
    let mut ends = used_list();
    let mut out = used_output();
    draw_in(
        rt,
        font,
        control,
        t,
        limit,
        &mut scratch[..size],
        &mut firsts[..first_room],
        &mut ends[..end_room],
        &mut out[..room],
    )
}

// The words are the limit, the lengths of both lists, a scratch's size and an output's room; the rest of the line is the text.
fn show_text(rt: &impl Print, font: &[u8], control: &[u8], words: &[u8]) -> io::Result<()> {
    let second = behind(words);
    let third = behind(second);
    let fourth = behind(third);
    let fifth = behind(fourth);
    draw(
        rt,
        font,
        control,
        past_byte(behind(fifth)),
        row_of(word_of(words)),
        row_of(word_of(second)).min(MOST_LINES),
        row_of(word_of(third)).min(MOST_LINES),
        row_of(word_of(fourth)).min(MOST_SCRATCH),
        row_of(word_of(fifth)).min(MOST_ROOM),
    )
}

// The first word is a control file.
pub(crate) fn show_lines(rt: &(impl Files + Print), font: &[u8], words: &[u8]) -> io::Result<()> {
    let mut buffer = [0u8; 16385];
    let n = load(rt, word_of(words), &mut buffer);
    show_text(rt, font, &buffer[..n], behind(words))
}
