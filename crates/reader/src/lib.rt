// A font read into three lists of numbers, and the character that is used for a code.
#![tactic(auto)]

ghost use Rattle.std.specs.Prelude.{◌≡◌, Some, List, length, take};
ghost use Rattle.ground.specs.Limits.{max_characters};
ghost use Rattle.chars.specs.declared.Entry.{Entry};
ghost use Rattle.index.specs.Index.{CharacterRoom, Lists};
ghost use Rattle.index.specs.Latest.{Latest};
ghost use Rattle.font.specs.Font.{format, reading};
ghost use Rattle.reader.specs.Reader.{ReadInto, Behind, FoundBelow, at_found, used, looked_up};

use chars::Entry;
use ground::refusals::Refusal;
use header::Header;
use index::latest;
use lines::Cursor;
use rows::Format;
use subchars::Code;

// What reading a font answers: its header, with the layout, and how many characters it has.
#[derive(Clone, Copy)]
pub struct FontRead {
    pub header: Header,
    pub count: usize,
}

// Which of three looking a code up came to: its own character, the one of code 0 that stands in for it, or nothing.
#[derive(Clone, Copy, PartialEq, Eq)]
pub enum LookedUp {
    Found(Entry),
    StoodIn(Entry),
    Nothing,
}

// What a header says of the rows.
fn format_of(h: Header) -> Format
    ensures { result ≡ format h }
{
    Format {
        hardblank: h.hardblank,
        height: h.height,
        max_length: h.max_length,
    }
}

// Reads the characters of a font into the lists. Its header was read, and they start at a cursor.
fn read_characters(
    h: Header,
    font: &[u8],
    cursor: Cursor,
    codes: &mut [i32],
    starts: &mut [usize],
    widths: &mut [usize],
) -> Result<FontRead, Refusal>
    requires { CharacterRoom max_characters codes.old starts.old widths.old }
    ensures { Behind h font.now cursor.at result codes.new starts.new widths.new }
{
    let count = index::fill(format_of(h), font, cursor, codes, starts, widths)?;
    Ok(FontRead { header: h, count })
}

// Reads a font into the lists, one pass over it.
pub fn read_lists(
    font: &[u8],
    codes: &mut [i32],
    starts: &mut [usize],
    widths: &mut [usize],
) -> Result<FontRead, Refusal>
    requires { CharacterRoom max_characters codes.old starts.old widths.old }
    ensures { ReadInto (reading font.now) result codes.new starts.new widths.new }
{
    let opening = font::open_font(font)?;
    read_characters(opening.header, font, opening.next, codes, starts, widths)
}

// What the lists hold at the place that look-up found.
fn entry_at(
    codes: &[i32],
    starts: &[usize],
    widths: &[usize],
    count: usize,
    found: Option<usize>,
) -> Option<Entry>
    requires character_room { CharacterRoom count codes.now starts.now widths.now }
    requires found_below { FoundBelow count found }
    ensures { (es : List Entry) → count ≡ length es → Lists es codes.now starts.now widths.now → result ≡ at_found found es }
{
    let k = found?;
    Some(Entry {
        code: Code(codes[k]),
        start: starts[k],
        width: widths[k],
    })
}

// The character that is used for a code, of those that the lists begin with.
pub fn find_entry(
    codes: &[i32],
    starts: &[usize],
    widths: &[usize],
    count: usize,
    code: Code,
) -> Option<Entry>
    requires { CharacterRoom count codes.now starts.now widths.now }
    ensures { (es : List Entry) → count ≡ length es → Lists es codes.now starts.now widths.now → result ≡ used code es }
{
    let found = index::look_up(&codes[..count], code);
    entry_at(codes, starts, widths, count, found)
}

// The same, with the last places of the small codes.
pub fn find_known(
    codes: &[i32],
    starts: &[usize],
    widths: &[usize],
    count: usize,
    places: &[usize],
    code: Code,
) -> Option<Entry>
    requires character_room { CharacterRoom count codes.now starts.now widths.now }
    requires latest { Latest (take count codes.now) places.now }
    ensures { (es : List Entry) → count ≡ length es → Lists es codes.now starts.now widths.now → result ≡ used code es }
{
    let found = latest::look_up(&codes[..count], places, code);
    entry_at(codes, starts, widths, count, found)
}

// Which of three an entry is that is used for a code: the code's own if it has that code, and otherwise the one that stands in.
pub fn which_of(entry: Entry, code: Code) -> LookedUp
    ensures { (es : List Entry) → used code es ≡ Some entry → result ≡ looked_up code es }
{
    if entry.code == code {
        return LookedUp::Found(entry);
    }
    LookedUp::StoodIn(entry)
}

// The same of what is used for a code, which may be nothing.
pub fn which_used(it: Option<Entry>, code: Code) -> LookedUp
    ensures { (es : List Entry) → used code es ≡ it → result ≡ looked_up code es }
{
    match it {
        Some(entry) => which_of(entry, code),
        None => LookedUp::Nothing,
    }
}
