// The areas that are lent for an answer, and how they are shown.
use crate::printing::{counted, named, quoted, refused, text};
use drawing::DrawAnswer;
use std::io;

// The arrays of which an output and a scratch are lent.
pub const MOST_ROOM: usize = 2100;

pub const MOST_SCRATCH: usize = 32001;

// Areas that hold something before they are written to.
pub fn used_output() -> [u8; MOST_ROOM] {
    [9u8; MOST_ROOM]
}

pub fn used_scratch() -> [u8; MOST_SCRATCH] {
    [9u8; MOST_SCRATCH]
}

// A byte of an output as it is printed: LF as `;`, and zero as `.`.
fn printable(x: u8) -> u8 {
    if x == b'\n' {
        return b';';
    }
    if x == b'\0' {
        return b'.';
    }
    x
}

// Prints all of an output.
pub fn show_output(rt: &impl Print, out: &mut [u8]) -> io::Result<()> {
    for x in out.iter_mut() {
        *x = printable(*x);
    }
    quoted(rt, out)
}

// Tells whether a scratch is all zeros.
pub fn show_scratch(rt: &impl Print, scratch: &[u8]) -> io::Result<()> {
    if scratch.iter().all(|x| *x == 0) {
        return text(rt, b", scratch all zeros");
    }
    text(rt, b", scratch NOT all zeros")
}

fn show_answer(rt: &impl Print, answer: DrawAnswer) -> io::Result<()> {
    match answer {
        DrawAnswer::Drawn { width, counts } => {
            named(rt, b"width ", width)?;
            counted(rt, counts.stood_in, counts.nothing_drawn)
        }
        DrawAnswer::Refused(r) => refused(rt, r),
    }
}

// What came of a drawing: the answer, all of the output, and whether the scratch is all zeros.
pub fn show_drawing(
    rt: &impl Print,
    answer: DrawAnswer,
    scratch: &[u8],
    out: &mut [u8],
) -> io::Result<()> {
    show_answer(rt, answer)?;
    show_output(rt, out)?;
    show_scratch(rt, scratch)
}
