// What is printed about a call on a pack: the answer, and all bytes of the pack where the call may change them.
use crate::drawings::show_by_pack;
use asking::printing::{named, quoted, refused, text};
use asking::{behind, code_of, past_byte, row_of, word_of};
use ground::refusals::Refusal;
use lines::words::digit;
use std::io;
use std::rt::Files;
use subchars::Code;

// The value of the hex digit at a place.
fn digit_at(t: &[u8], i: usize) -> u8 {
    if i < t.len() {
        return (digit(t[i]) % 16) as u8;
    }
    0
}

// The byte that two hex digits behind a blank name.
fn byte_of(t: &[u8]) -> u8 {
    let high = digit_at(t, 1) % 16;
    let low = digit_at(t, 2) % 16;
    high * 16 + low
}

// A byte of the pack, as far as the pack has it.
fn write_byte(pack: &mut [u8], i: usize, x: u8) {
    if i < pack.len() {
        pack[i] = x;
    }
}

// Writes bytes, each a blank and two hex digits.
fn write_bytes(pack: &mut [u8], t: &[u8]) {
    let mut at: usize = 0;
    while at < t.len() {
        write_byte(pack, at / 3, byte_of(&t[at..]));
        at += 3;
    }
}

fn hex_digit(x: u8) -> u8 {
    let d = x % 16;
    if d < 10 {
        return b'0' + d;
    }
    (b'a' - 10) + d
}

// A byte as it is written: a blank and two hex digits.
fn show_byte(rt: &impl Print, x: u8) -> io::Result<()> {
    text(rt, &[b' ', hex_digit(x / 16), hex_digit(x)])
}

fn byte_at(rt: &impl Print, pack: &[u8], i: usize) -> io::Result<()> {
    if i < pack.len() {
        show_byte(rt, pack[i])?;
    }
    Ok(())
}

// How many bytes there are up to the last that is not zero.
fn used_length(pack: &[u8]) -> usize {
    let mut n = pack.len();
    while 0 < n {
        if pack[n - 1] != b'\0' {
            return n;
        }
        n -= 1;
    }
    0
}

fn show_bytes(rt: &impl Print, pack: &[u8], n: usize) -> io::Result<()> {
    for i in 0..n {
        byte_at(rt, pack, i)?;
    }
    Ok(())
}

// All of a pack: its bytes up to the last that is not zero, and the place where the zeros behind them end.
fn show_pack(rt: &impl Print, pack: &[u8]) -> io::Result<()> {
    text(rt, b",")?;
    show_bytes(rt, pack, used_length(pack))?;
    named(rt, b", zeros to ", pack.len())
}

fn show_check(rt: &impl Print, pack: &[u8]) -> io::Result<()> {
    match wattleslate::pack_check(pack) {
        Ok(accepted) => {
            named(rt, b"height ", accepted.height)?;
            named(rt, b", live ", accepted.live)
        }
        Err(r) => refused(rt, r),
    }
}

// Where a letter is, its width and its rows.
fn show_letter(rt: &impl Print, pack: &[u8], code: Code) -> io::Result<()> {
    match wattleslate::pack_find(pack, code) {
        Ok(found) => {
            named(rt, b"at ", found.place)?;
            named(rt, b", width ", found.width)?;
        }
        Err(r) => refused(rt, r)?,
    }
    quoted(rt, wattleslate::pack_rows(pack, code))
}

// What came of a change.
fn show_change(rt: &impl Print, answer: Result<(), Refusal>, pack: &[u8]) -> io::Result<()> {
    match answer {
        Ok(()) => text(rt, b"done")?,
        Err(r) => refused(rt, r)?,
    }
    show_pack(rt, pack)
}

// The words are a code and a width; the rest of the line is the rows.
fn put(rt: &impl Print, words: &[u8], pack: &mut [u8]) -> io::Result<()> {
    let second = behind(words);
    let answer = wattleslate::pack_put(
        pack,
        code_of(word_of(words)),
        row_of(word_of(second)),
        past_byte(behind(second)),
    );
    show_change(rt, answer, pack)
}

fn remove(rt: &impl Print, words: &[u8], pack: &mut [u8]) -> io::Result<()> {
    let answer = wattleslate::pack_remove(pack, code_of(word_of(words)));
    show_change(rt, answer, pack)
}

fn compact(rt: &impl Print, pack: &mut [u8]) -> io::Result<()> {
    let answer = wattleslate::pack_compact(pack);
    show_change(rt, answer, pack)
}

// The whole pack: the bytes of the line, and zeros behind.
fn write(rt: &impl Print, t: &[u8], pack: &mut [u8]) -> io::Result<()> {
    ground::zero_from(pack, 0);
    write_bytes(pack, t);
    text(rt, b"written")?;
    show_pack(rt, pack)
}

// A step that may change the pack.
fn change(rt: &impl Print, name: &[u8], words: &[u8], pack: &mut [u8]) -> io::Result<()> {
    if name.starts_with(b"write") {
        return write(rt, words, pack);
    }
    if name.starts_with(b"put") {
        return put(rt, words, pack);
    }
    if name.starts_with(b"remove") {
        return remove(rt, words, pack);
    }
    compact(rt, pack)
}

// The first word names the step.
pub fn show_step(rt: &(impl Files + Print), words: &[u8], pack: &mut [u8]) -> io::Result<()> {
    let name = word_of(words);
    let rest = behind(words);
    if name.starts_with(b"check") {
        return show_check(rt, pack);
    }
    if name.starts_with(b"find") {
        return show_letter(rt, pack, code_of(word_of(rest)));
    }
    if name.starts_with(b"draw") {
        return show_by_pack(rt, pack, rest);
    }
    change(rt, name, rest, pack)
}
