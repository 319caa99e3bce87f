// The FIGcharacters of a font, one after another: the required codes, code tags, and the end of the file.
#![tactic(auto)]

ghost use Rattle.std.specs.Prelude.{◌≡◌, ◌<◌, get_or};
ghost use Rattle.chars.specs.Codes.{required_codes, required_count, tag_of};
ghost use Rattle.chars.specs.Steps.{listed_at, tag_at, blank_from, tagged_at, next_at};

use ground::limits;
use ground::refusals::{Reason, Refusal};
use lines::{Cursor, numbers, words};
use rows::Format;
use subchars::Code;

// A FIGcharacter of a font: its code, where its first row line starts, and its width.
#[derive(Clone, Copy, PartialEq, Eq)]
pub struct Entry {
    pub code: Code,
    pub start: usize,
    pub width: usize,
}

// What a tag line of a font says: its code, and the cursor behind it.
#[derive(Clone, Copy)]
pub struct TagLine {
    pub code: Code,
    pub next: Cursor,
}

// A FIGcharacter of a font, and the cursor behind it.
#[derive(Clone, Copy)]
pub struct Listed {
    pub entry: Entry,
    pub next: Cursor,
}

// The required codes: those of ASCII from 32 to 126, and the seven of Deutsch.
const REQUIRED: usize = 102;

const ASCII: usize = 95;

const DEUTSCH: [usize; 7] = [196, 214, 220, 228, 246, 252, 223];

// The k-th of the required codes, from 0.
fn required(k: usize) -> usize
    requires { k < required_count }
    ensures { result ≡ get_or required_codes k 0 }
{
    if k < ASCII {
        return k + 32;
    }
    DEUTSCH[k - ASCII]
}

// The code that a tag line gives, if it gives one; -1 is not one.
fn tag_of(t: &[u8]) -> Option<Code>
    ensures { result ≡ tag_of t.now }
{
    let word = words::first_word(t);
    let code = numbers::code_number(&t[word.start..word.end])?;
    if code == Code(-1) {
        return None;
    }
    Some(code)
}

// The tag line at a cursor, if there is a good one.
fn tag_at(s: &[u8], cursor: Cursor) -> Option<TagLine>
    ensures { result ≡ tag_at s.now cursor.at }
{
    let line = cursor.next(s)?;
    let code = tag_of(&s[line.start..line.end])?;
    Some(TagLine {
        code,
        next: line.next,
    })
}

// Whether only blanks, tabs and line ends remain.
fn rest_is_blank(s: &[u8], at: usize) -> bool
    ensures { result ≡ blank_from s.now at }
{
    s.iter()
        .skip(at)
        .all(|&b| words::is_blank(b) || words::is_end(b))
}

// The character of a code, whose first row line is at a cursor.
fn listed_at(f: Format, s: &[u8], cursor: Cursor, code: Code) -> Result<Option<Listed>, Refusal>
    ensures { result ≡ listed_at f s.now cursor.at code }
{
    let rows = rows::char_at(f, s, cursor)?;
    Ok(Some(Listed {
        entry: Entry {
            code,
            start: cursor.at,
            width: rows.width,
        },
        next: rows.next,
    }))
}

// The tagged character whose tag line is at a cursor, after n others; none if the font has ended.
fn tagged_at(f: Format, s: &[u8], cursor: Cursor, n: usize) -> Result<Option<Listed>, Refusal>
    ensures { result ≡ tagged_at f s.now cursor.at n }
{
    if rest_is_blank(s, cursor.at) {
        return Ok(None);
    }
    let tag = tag_at(s, cursor).ok_or(Refusal {
        reason: Reason::BadCodeTag,
        place: cursor.at,
    })?;
    if n < limits::MAX_CHARACTERS {
        return listed_at(f, s, tag.next, tag.code);
    }
    Err(Refusal {
        reason: Reason::TooManyCharacters,
        place: cursor.at,
    })
}

// The character at a cursor, after n others; none if the font has ended.
pub fn next_char(f: Format, s: &[u8], cursor: Cursor, n: usize) -> Result<Option<Listed>, Refusal>
    ensures { result ≡ next_at f s.now cursor.at n }
{
    if n < REQUIRED {
        let code = Code(required(n) as i32);
        return listed_at(f, s, cursor, code);
    }
    tagged_at(f, s, cursor, n)
}
