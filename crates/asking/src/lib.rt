// What the programs that answer requests share: a request taken apart into its words and blocks, the file that it names, and what is printed.
#![tactic(auto)]

pub mod lent;
pub mod printing;

ghost use Rattle.std.specs.Counts.{IsPrefixLen};
ghost use Rattle.std.specs.Io.{ReadsAtMost};

use lines::{numbers, words};
use std::io::{ErrorKind, Read};
use std::rt::Files;
use std::{fs, io};
use subchars::{Code, SubCharacter};

// Reads until a buffer is full or the input ends, and tells how many bytes it put at the start of the buffer.
pub fn read_full(input: &mut impl Read, buffer: &mut [u8]) -> io::Result<usize>
    ensures { ReadsAtMost result buffer.new }
{
    let mut done: usize = 0;
    for _ in 0..u64::MAX {
        if done == buffer.len() {
            break;
        }
        match input.read(&mut buffer[done..]) {
            Ok(0) => break,
            Ok(n) => done += n,
            Err(e) if e.kind() == ErrorKind::Interrupted => {}
            Err(e) => return Err(e),
        }
    }
    Ok(done)
}

// Reads until a buffer is full, or the file ends or fails, and tells how many bytes it put at the start of the buffer.
fn read_start(file: &mut impl Read, buffer: &mut [u8]) -> usize
    ensures { IsPrefixLen result buffer.new }
{
    let mut done: usize = 0;
    for _ in 0..u64::MAX {
        if done == buffer.len() {
            return done;
        }
        match file.read(&mut buffer[done..]) {
            Ok(0) => return done,
            Ok(n) => done += n,
            Err(e) if e.kind() == ErrorKind::Interrupted => {}
            Err(_) => return done,
        }
    }
    done
}

// Reads a file of the folder; one that is not there is empty. A name that is no UTF-8 names no file.
pub fn load(files: &impl Files, name: &[u8], buffer: &mut [u8]) -> usize
    ensures { IsPrefixLen result buffer.new }
{
    let Ok(path) = str::from_utf8(name) else {
        return 0;
    };
    match fs::open(files, path) {
        Ok(mut file) => read_start(&mut file, buffer),
        Err(_) => 0,
    }
}

// The first 64 bytes of a request.
pub fn shortened(line: &[u8]) -> &[u8] {
    &line[..line.len().min(64)]
}

// The first word of a request.
pub fn word_of(line: &[u8]) -> &[u8] {
    let w = words::first_word(line);
    let a = w.start;
    let e = w.end;
    if a <= e && e <= line.len() {
        return &line[a..e];
    }
    &line[..0]
}

// What stands behind the first word.
pub fn behind(line: &[u8]) -> &[u8] {
    let w = words::first_word(line);
    let e = w.end;
    if e <= line.len() {
        return &line[e..];
    }
    &line[..0]
}

// The code that a word names; a word that names none asks for code 0.
pub fn code_of(word: &[u8]) -> Code {
    numbers::code_number(word).unwrap_or(Code(0))
}

// The row number that a word names, as far as it is one.
pub fn row_of(word: &[u8]) -> usize {
    let c = code_of(word);
    let z = c.0;
    if z < 0 {
        return 0;
    }
    z as usize
}

// The hardblank that a word names, as a number.
pub fn hardblank_of(word: &[u8]) -> SubCharacter {
    let n = row_of(word) % 256;
    SubCharacter(n as u8)
}

// What stands behind the first byte.
pub fn past_byte(t: &[u8]) -> &[u8] {
    if 0 < t.len() {
        return &t[1..];
    }
    t
}

// The blocks of a text: the first has so many bytes, as far as there are,
pub fn first_block(t: &[u8], length: usize) -> &[u8] {
    if length <= t.len() {
        return &t[..length];
    }
    t
}

// and the second stands a byte behind it.
pub fn second_block(t: &[u8], length: usize) -> &[u8] {
    if length <= t.len() {
        return past_byte(&t[length..]);
    }
    &t[..0]
}
