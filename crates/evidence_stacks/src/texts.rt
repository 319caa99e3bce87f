// What is printed about two texts drawn one above the other: the answer, all of the output, and whether the scratch is all zeros.
ghost use Rattle.std.specs.Prelude.{◌≤◌};

use crate::stacks::show_numbers;
use asking::lent::{MOST_ROOM, show_output, show_scratch, used_output};
use asking::printing::{counted, refused};
use asking::{behind, first_block, load, past_byte, row_of, second_block, word_of};
use std::io;
use std::rt::Files;
use wattleslate::LinesAnswer;

// The array of which a scratch is lent.
const MOST_SCRATCH: usize = 64001;

// A scratch that holds something before it is drawn into.
fn used_scratch() -> [u8; MOST_SCRATCH] {
    [9u8; MOST_SCRATCH]
}

fn show_answer(rt: &impl Print, answer: LinesAnswer) -> io::Result<()> {
    match answer {
        LinesAnswer::Drawn {
            overlap,
            height,
            width,
            counts,
        } => {
            show_numbers(rt, overlap, height, width)?;
            counted(rt, counts.stood_in, counts.nothing_drawn)
        }
        LinesAnswer::Refused(r) => refused(rt, r),
    }
}

// Draws, and shows what came of it.
fn draw_in(
    rt: &impl Print,
    font: &[u8],
    control: &[u8],
    upper: &[u8],
    lower: &[u8],
    scratch: &mut [u8],
    out: &mut [u8],
) -> io::Result<()> {
    show_answer(
        rt,
        wattleslate::draw_stacked(font, control, upper, lower, scratch, out),
    )?;
    show_output(rt, out)?;
    show_scratch(rt, scratch)
}

// Draws in areas of some size.
fn draw(
    rt: &impl Print,
    font: &[u8],
    control: &[u8],
    upper: &[u8],
    lower: &[u8],
    size: usize,
    room: usize,
) -> io::Result<()>
    requires { (size ≤ 64001) × (room ≤ 2100) }
{
    let mut scratch = used_scratch();
    let mut out = used_output();
    draw_in(
        rt,
        font,
        control,
        upper,
        lower,
        &mut scratch[..size],
        &mut out[..room],
    )
}

// The words are a control file, a scratch's size, an output's room and the length of the upper text; the texts follow, with a byte between.
pub(crate) fn show_texts(rt: &(impl Files + Print), font: &[u8], words: &[u8]) -> io::Result<()> {
    let mut buffer = [0u8; 16385];
    let n = load(rt, word_of(words), &mut buffer);
    let second = behind(words);
    let third = behind(second);
    let fourth = behind(third);
    let size = row_of(word_of(second)).min(MOST_SCRATCH);
    let room = row_of(word_of(third)).min(MOST_ROOM);
    let length = row_of(word_of(fourth));
    let t = past_byte(behind(fourth));
    draw(
        rt,
        font,
        &buffer[..n],
        first_block(t, length),
        second_block(t, length),
        size,
        room,
    )
}
