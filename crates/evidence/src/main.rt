// Answers requests on standard input about the files of its folder: fonts at both sides of every limit, and control files.
#![tactic(auto)]

mod controls;
mod drawings;
mod fonts;
mod indexes;
mod joins;

use asking::printing::{heading, text};
use asking::{behind, load, read_full, shortened, word_of};
use lines::Cursor;
use std::io;
use std::rt::Files;

// Requests about a font; the answer begins with the font's name, or with the request.
fn about_font(rt: &impl Print, line: &[u8], font: &[u8]) -> io::Result<()> {
    let arguments = behind(line);
    if line.starts_with(b"read ") {
        heading(rt, word_of(arguments))?;
        fonts::show_font(rt, font)?;
    }
    if line.starts_with(b"look ") {
        fonts::show_entry(rt, font, arguments)?;
    }
    if line.starts_with(b"row ") {
        fonts::show_row(rt, font, arguments)?;
    }
    if line.starts_with(b"index ") {
        heading(rt, line)?;
        indexes::show_index(rt, font, behind(arguments))?;
    }
    Ok(())
}

// Requests about a control file; the answer begins with the request.
fn about_control(rt: &impl Print, line: &[u8], control: &[u8]) -> io::Result<()> {
    if line.starts_with(b"control ") {
        heading(rt, line)?;
        controls::show_control(rt, control)?;
    }
    if line.starts_with(b"short ") {
        heading(rt, line)?;
        controls::show_short(rt, control)?;
    }
    if line.starts_with(b"map ") {
        heading(rt, line)?;
        controls::show_map(rt, control, word_of(behind(behind(line))))?;
    }
    Ok(())
}

// A request for a drawing; the answer begins with the request, of which 64 bytes are shown.
fn about_drawing(rt: &(impl Files + Print), line: &[u8], font: &[u8]) -> io::Result<()> {
    if line.starts_with(b"draw ") {
        heading(rt, shortened(line))?;
        drawings::show_drawing(rt, font, behind(behind(line)))?;
    }
    Ok(())
}

// A request for a join; the answer begins with the request, of which 64 bytes are shown.
fn about_join(rt: &impl Print, line: &[u8]) -> io::Result<()> {
    if line.starts_with(b"join ") {
        heading(rt, shortened(line))?;
        joins::show_join(rt, behind(line))?;
    }
    Ok(())
}

// One request: a word, a file's name, and for some a code and a row.
fn request(rt: &(impl Files + Print), line: &[u8]) -> io::Result<()> {
    let mut buffer = [0u8; 65537];
    let n = load(rt, word_of(behind(line)), &mut buffer);
    let file = &buffer[..n];
    about_font(rt, line, file)?;
    about_control(rt, line, file)?;
    about_drawing(rt, line, file)?;
    about_join(rt, line)?;
    text(rt, b"\n")
}

// The requests of a text, a line each.
fn requests(rt: &(impl Files + Print), t: &[u8]) -> io::Result<()> {
    let mut cursor = Cursor::new();
    while let Some(line) = cursor.next(t) {
        request(rt, &t[line.start..line.end])?;
        cursor = line.next;
    }
    Ok(())
}

fn main(rt: HostRuntime) -> io::Result<()> {
    let mut buffer = [0u8; 20480];
    let n = read_full(&mut rt.stdin(), &mut buffer)?;
    requests(&rt, &buffer[..n])
}
