// What is printed about a font: what it says, what looking a code up came to, and a row.
use crate::indexes::{ask, show_looked};
use asking::printing::{heading, named, number, quoted, refused, signed_named, text};
use asking::{behind, code_of, row_of, word_of};
use ground::limits;
use header::Header;
use std::io;
use subchars::{Code, Layout, Smushing};

fn given(rt: &impl Print, name: &[u8], g: Option<usize>) -> io::Result<()> {
    text(rt, name)?;
    match g {
        None => text(rt, b"absent"),
        Some(n) => number(rt, n),
    }
}

fn smushing(rt: &impl Print, kind: Smushing) -> io::Result<()> {
    match kind {
        Smushing::Universal => text(rt, b"universal"),
        Smushing::Controlled(rules) => named(rt, b"controlled ", rules as usize),
    }
}

fn layout(rt: &impl Print, y: Layout) -> io::Result<()> {
    match y {
        Layout::FullWidth => text(rt, b"full width"),
        Layout::Fitting => text(rt, b"fitting"),
        Layout::Smushing(kind) => smushing(rt, kind),
    }
}

// The five numbers that every header has, behind the hardblank.
fn required(rt: &impl Print, h: Header) -> io::Result<()> {
    let hardblank = h.hardblank;
    named(rt, b", hardblank ", hardblank.0 as usize)?;
    named(rt, b", height ", h.height)?;
    named(rt, b", baseline ", h.baseline)?;
    named(rt, b", max_length ", h.max_length)?;
    signed_named(rt, b", old_layout ", h.old_layout)?;
    named(rt, b", comment_lines ", h.comment_lines)
}

// The numbers that a header may have, and the layout.
fn optional(rt: &impl Print, h: Header) -> io::Result<()> {
    let direction = h.print_direction;
    let full = h.full_layout;
    let tags = h.codetag_count;
    let y = h.layout;
    given(rt, b", print_direction ", direction)?;
    given(rt, b", full_layout ", full)?;
    given(rt, b", codetag_count ", tags)?;
    text(rt, b", ")?;
    layout(rt, y)
}

// What a header says, behind the number of characters.
fn says(rt: &impl Print, count: usize, h: Header) -> io::Result<()> {
    number(rt, count)?;
    text(rt, b" characters")?;
    required(rt, h)?;
    optional(rt, h)
}

// What a font says, read into an index of 512 entries.
pub(crate) fn show_font(rt: &impl Print, font: &[u8]) -> io::Result<()> {
    let a = ask(font, limits::MAX_CHARACTERS, 0, Code(0), 0);
    let answer = a.answer;
    match answer {
        Ok(read) => says(rt, read.count, read.header),
        Err(r) => refused(rt, r),
    }
}

// What looking a code up came to, behind the font's name; the code is the second word.
pub(crate) fn show_entry(rt: &impl Print, font: &[u8], words: &[u8]) -> io::Result<()> {
    let word = word_of(behind(words));
    text(rt, word_of(words))?;
    text(rt, b" ")?;
    heading(rt, word)?;
    match wattleslate::look_up(font, code_of(word)) {
        Ok(looked) => show_looked(rt, looked),
        Err(r) => refused(rt, r),
    }
}

// Where a row is and its bytes, or its refusal.
fn show_part(rt: &impl Print, font: &[u8], code: Code, row: usize) -> io::Result<()> {
    match wattleslate::row_refusal(font, code, row) {
        Ok(at) => {
            named(rt, b"at ", at.place)?;
            named(rt, b", width ", at.width)?;
            quoted(rt, wattleslate::row(font, code, row))
        }
        Err(r) => refused(rt, r),
    }
}

// A row of the character that is used for a code, behind the words that ask for it: a font's name, the code and the row's number.
pub(crate) fn show_row(rt: &impl Print, font: &[u8], words: &[u8]) -> io::Result<()> {
    let second = behind(words);
    let code = word_of(second);
    let row = word_of(behind(second));
    text(rt, word_of(words))?;
    text(rt, b" ")?;
    text(rt, code)?;
    text(rt, b" ")?;
    heading(rt, row)?;
    show_part(rt, font, code_of(code), row_of(row))
}
