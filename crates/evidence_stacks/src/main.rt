// Answers requests on standard input for stacks of two blocks and of two texts, for texts in lines, and for packs: every rule, both sides of each limit, and the
// refusals in their order.
#![tactic(auto)]

mod stacks;
mod texts;
mod wraps;

use asking::printing::{heading, text};
use asking::{behind, load, read_full, row_of, shortened, word_of};
use asking_packs::{drawings, packs};
use lines::Cursor;
use std::io;
use std::rt::Files;

// Two texts, by the font that the request names.
fn about_texts(rt: &(impl Files + Print), words: &[u8]) -> io::Result<()> {
    let mut buffer = [0u8; 65537];
    let n = load(rt, word_of(words), &mut buffer);
    texts::show_texts(rt, &buffer[..n], behind(words))
}

// A text in lines, by the font that the request names.
fn about_lines(rt: &(impl Files + Print), words: &[u8]) -> io::Result<()> {
    let mut buffer = [0u8; 65537];
    let n = load(rt, word_of(words), &mut buffer);
    wraps::show_lines(rt, &buffer[..n], behind(words))
}

// A text, by the font that the request names.
fn about_font(rt: &(impl Files + Print), words: &[u8]) -> io::Result<()> {
    let mut buffer = [0u8; 65537];
    let n = load(rt, word_of(words), &mut buffer);
    drawings::show_by_font(rt, &buffer[..n], behind(words))
}

// A request about a pack: the first word says how many bytes of it are lent.
fn about_pack(rt: &(impl Files + Print), words: &[u8], pack: &mut [u8]) -> io::Result<()> {
    let size = row_of(word_of(words)).min(pack.len());
    packs::show_step(rt, behind(words), &mut pack[..size])
}

// A request for a stack of two blocks or of two texts, or for a text in lines or in one line.
fn about_blocks_and_texts(rt: &(impl Files + Print), line: &[u8]) -> io::Result<()> {
    if line.starts_with(b"stack ") {
        stacks::show_stack(rt, behind(line))?;
    }
    if line.starts_with(b"texts ") {
        about_texts(rt, behind(line))?;
    }
    if line.starts_with(b"lines ") {
        about_lines(rt, behind(line))?;
    }
    if line.starts_with(b"font ") {
        about_font(rt, behind(line))?;
    }
    Ok(())
}

// A request of those kinds, or about the pack that is kept from request to request; the answer begins with the request, of which 64 bytes are shown.
fn request(rt: &(impl Files + Print), line: &[u8], pack: &mut [u8]) -> io::Result<()> {
    heading(rt, shortened(line))?;
    if line.starts_with(b"pack ") {
        about_pack(rt, behind(line), pack)?;
        return text(rt, b"\n");
    }
    about_blocks_and_texts(rt, line)?;
    text(rt, b"\n")
}

// The requests of a text, a line each.
fn requests(rt: &(impl Files + Print), t: &[u8], pack: &mut [u8]) -> io::Result<()> {
    let mut cursor = Cursor::new();
    while let Some(line) = cursor.next(t) {
        request(rt, &t[line.start..line.end], pack)?;
        cursor = line.next;
    }
    Ok(())
}

fn main(rt: HostRuntime) -> io::Result<()> {
    let mut buffer = [0u8; 65536];
    let mut pack = [0u8; 65537];
    let n = read_full(&mut rt.stdin(), &mut buffer)?;
    requests(&rt, &buffer[..n], &mut pack)
}
