// Answers requests on standard input for drawings by two fonts and for their rows: which font a code is taken from, what stands in, whose layout counts, and the
// refusals in their order; and for checks of another program's drawings.
#![tactic(auto)]

mod checks;
mod drawings;
mod parts;

use asking::printing::{heading, text};
use asking::{behind, load, read_full, shortened, word_of};
use lines::Cursor;
use std::io;
use std::rt::Files;

// A request about two fonts, or about a font and a FIGure; the words are those behind their names.
fn about_files<'a>(
    rt: &(impl Files + Print),
    line: &[u8],
    first: &'a [u8],
    second: &'a [u8],
    words: &[u8],
) -> io::Result<()> {
    if line.starts_with(b"check ") {
        checks::show_check(rt, first, second, words)?;
    }
    if line.starts_with(b"draw ") {
        drawings::show_drawing(rt, first, second, words)?;
    }
    if line.starts_with(b"row ") {
        parts::show_row(rt, first, second, words)?;
    }
    Ok(())
}

// One request: a word, the names of two files, and what is asked of them. The answer begins with the request, of which 64 bytes are shown.
fn request(rt: &(impl Files + Print), line: &[u8]) -> io::Result<()> {
    let mut buffer = [0u8; 65537];
    let mut other = [0u8; 65537];
    let names = behind(line);
    let rest = behind(names);
    let n = load(rt, word_of(names), &mut buffer);
    let m = load(rt, word_of(rest), &mut other);
    heading(rt, shortened(line))?;
    about_files(rt, line, &buffer[..n], &other[..m], behind(rest))?;
    text(rt, b"\n")
}

// The requests of a text, a line each.
fn requests(rt: &(impl Files + Print), t: &[u8]) -> io::Result<()> {
    let mut cursor = Cursor::new();
    while let Some(line) = cursor.next(t) {
        request(rt, &t[line.start..line.end])?;
        cursor = line.next;
    }
    Ok(())
}

fn main(rt: HostRuntime) -> io::Result<()> {
    let mut buffer = [0u8; 32768];
    let n = read_full(&mut rt.stdin(), &mut buffer)?;
    requests(&rt, &buffer[..n])
}
