// What is printed about a lent index: a font is read into it, a code is looked up in it, and one of its entries is shown.
ghost use Rattle.std.specs.Prelude.{◌<◌, ◌≤◌};

use asking::printing::{named, number, refused, signed_named, text};
use asking::{behind, code_of, row_of, word_of};
use chars::Entry;
use ground::refusals::Refusal;
use std::io;
use subchars::Code;
use wattleslate::{FontRead, LookedUp};

// How many entries the array has that is lent, whole or a part of it.
const MOST: usize = 600;

// What the two calls answer, and the entry that was asked for.
#[derive(Clone, Copy)]
pub(crate) struct Asked {
    pub(crate) answer: Result<FontRead, Refusal>,
    pub(crate) looked: LookedUp,
    pub(crate) entry: Entry,
}

// Entries that hold something before a font is read into them.
fn nines() -> [Entry; MOST] {
    [Entry {
        code: Code(9),
        start: 9,
        width: 9,
    }; MOST]
}

// Reads a font into an index of some size, and looks a code up among so many of its entries; then the array's entry at a place.
pub(crate) fn ask(font: &[u8], size: usize, count: usize, code: Code, place: usize) -> Asked
    requires { (size ≤ 600) × (place < 600) }
{
    let mut entries = nines();
    let answer = wattleslate::read_font(font, &mut entries[..size]);
    let looked = wattleslate::find_in(&entries[..size], count, code);
    let entry = entries[place];
    Asked {
        answer,
        looked,
        entry,
    }
}

// An entry.
pub(crate) fn show(rt: &impl Print, e: Entry) -> io::Result<()> {
    let code = e.code;
    signed_named(rt, b"code ", code.0)?;
    named(rt, b", start ", e.start)?;
    named(rt, b", width ", e.width)
}

// Which of three a look-up came to.
pub(crate) fn show_looked(rt: &impl Print, looked: LookedUp) -> io::Result<()> {
    match looked {
        LookedUp::Found(e) => {
            text(rt, b"found ")?;
            show(rt, e)
        }
        LookedUp::StoodIn(e) => {
            text(rt, b"stood in ")?;
            show(rt, e)
        }
        LookedUp::Nothing => text(rt, b"nothing"),
    }
}

fn show_answer(rt: &impl Print, answer: Result<FontRead, Refusal>) -> io::Result<()> {
    match answer {
        Ok(read) => {
            number(rt, read.count)?;
            text(rt, b" characters")
        }
        Err(r) => refused(rt, r),
    }
}

// The answer of reading the font, what the look-up came to, and the entry at the place.
fn show_asked(rt: &impl Print, a: Asked, place: usize) -> io::Result<()> {
    let answer = a.answer;
    let looked = a.looked;
    let entry = a.entry;
    show_answer(rt, answer)?;
    text(rt, b"; ")?;
    show_looked(rt, looked)?;
    named(rt, b"; at ", place)?;
    text(rt, b": ")?;
    show(rt, entry)
}

// The words are a size, a count, a code and a place: the answer of reading the font, what looking the code up came to, and the entry at the place.
pub(crate) fn show_index(rt: &impl Print, font: &[u8], words: &[u8]) -> io::Result<()> {
    let size = row_of(word_of(words)).min(MOST);
    let second = behind(words);
    let third = behind(second);
    let place = row_of(word_of(behind(third))).min(MOST - 1);
    let a = ask(
        font,
        size,
        row_of(word_of(second)),
        code_of(word_of(third)),
        place,
    );
    show_asked(rt, a, place)
}
