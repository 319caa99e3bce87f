// What is printed about a drawing by two fonts: the answer, all of the output, and whether the scratch is all zeros.
ghost use Rattle.std.specs.Prelude.{◌≤◌};

use asking::lent::{MOST_ROOM, MOST_SCRATCH, used_output, used_scratch};
use asking::{behind, lent, load, past_byte, row_of, word_of};
use std::io;
use std::rt::Files;

// Draws, and shows what came of it.
fn draw_in<'a>(
    rt: &impl Print,
    first: &'a [u8],
    second: &'a [u8],
    control: &[u8],
    t: &[u8],
    scratch: &mut [u8],
    out: &mut [u8],
) -> io::Result<()> {
    let answer = wattleslate::draw_two(first, second, control, t, scratch, out);
    lent::show_drawing(rt, answer, scratch, out)
}

// Draws in areas of some size.
fn draw<'a>(
    rt: &impl Print,
    first: &'a [u8],
    second: &'a [u8],
    control: &[u8],
    t: &[u8],
    size: usize,
    room: usize,
) -> io::Result<()>
    requires { (size ≤ 32001) × (room ≤ 2100) }
{
    let mut scratch = used_scratch();
    let mut out = used_output();
    draw_in(
        rt,
        first,
        second,
        control,
        t,
        &mut scratch[..size],
        &mut out[..room],
    )
}

// The words are a control file, a scratch's size and an output's room; the rest of the line is the text.
pub(crate) fn show_drawing<'a>(
    rt: &(impl Files + Print),
    first: &'a [u8],
    second: &'a [u8],
    words: &[u8],
) -> io::Result<()> {
    let mut buffer = [0u8; 16385];
    let n = load(rt, word_of(words), &mut buffer);
    let sizes = behind(words);
    let third = behind(sizes);
    let size = row_of(word_of(sizes)).min(MOST_SCRATCH);
    let room = row_of(word_of(third)).min(MOST_ROOM);
    draw(
        rt,
        first,
        second,
        &buffer[..n],
        past_byte(behind(third)),
        size,
        room,
    )
}
