// What is printed about a row of two fonts: in which of them it stands, where and how wide, or the refusal; then the bytes that the row request hands back.
use asking::printing::{named, quoted, refused, text};
use asking::{behind, code_of, row_of, word_of};
use std::io;
use subchars::Code;
use wattleslate::{RequestedOfTwo, Which};

fn show_font(rt: &impl Print, font: Which) -> io::Result<()> {
    match font {
        Which::First => text(rt, b"first"),
        Which::Second => text(rt, b"second"),
    }
}

fn show_answer(rt: &impl Print, answer: RequestedOfTwo) -> io::Result<()> {
    match answer {
        RequestedOfTwo::Row { font, place, width } => {
            show_font(rt, font)?;
            named(rt, b" at ", place)?;
            named(rt, b", width ", width)
        }
        RequestedOfTwo::Refused(r) => refused(rt, r),
    }
}

fn show_both<'a>(
    rt: &impl Print,
    first: &'a [u8],
    second: &'a [u8],
    code: Code,
    row: usize,
) -> io::Result<()> {
    show_answer(
        rt,
        wattleslate::row_of_two_refusal(first, second, code, row),
    )?;
    quoted(rt, wattleslate::row_of_two(first, second, code, row))
}

// The words are a code and a row's number.
pub(crate) fn show_row<'a>(
    rt: &impl Print,
    first: &'a [u8],
    second: &'a [u8],
    words: &[u8],
) -> io::Result<()> {
    show_both(
        rt,
        first,
        second,
        code_of(word_of(words)),
        row_of(word_of(behind(words))),
    )
}
