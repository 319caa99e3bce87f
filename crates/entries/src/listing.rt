// A font's characters as an array of entries, with zeros behind them.
ghost use Rattle.std.specs.Prelude.{◌≡◌, List, ◌≤◌, length};
ghost use Rattle.ground.specs.Limits.{max_characters};
ghost use Rattle.chars.specs.declared.Entry.{Entry};
ghost use Rattle.font.specs.Font.{refuses};
ghost use Rattle.index.specs.Index.{CharacterRoom, Lists};
ghost use Rattle.entries.specs.Filling.{font_reading, with_zeros};
ghost use Rattle.entries.specs.Steps.{array_length, listed_of};

use chars::Entry;
use ground::limits;
use ground::refusals::{Reason, Refusal};
use reader::FontRead;
use subchars::Code;

// The last place of the array, and its length. No font has a character at the last place: the zeros there stand for all that lie behind.
pub const LAST: usize = limits::MAX_CHARACTERS;

const LENGTH: usize = LAST + 1;

const ZEROS: [Entry; LENGTH] = [Entry {
    code: Code(0),
    start: 0,
    width: 0,
}; LENGTH];

// What reading a font answers, and its characters.
#[derive(Clone, Copy)]
pub struct Listed {
    pub answer: Result<FontRead, Refusal>,
    pub entries: [Entry; LENGTH],
}

// The entries that the lists begin with.
fn list_entries(codes: &[i32], starts: &[usize], widths: &[usize], count: usize) -> [Entry; LENGTH]
    requires { CharacterRoom count codes.now starts.now widths.now × count ≤ max_characters }
    ensures { (es : List Entry) → count ≡ length es → Lists es codes.now starts.now widths.now → result ≡ with_zeros es array_length }
{
    let mut entries = ZEROS;
    for i in 0..count {
        entries[i] = Entry {
            code: Code(codes[i]),
            start: starts[i],
            width: widths[i],
        };
    }
    entries
}

fn refuse(r: Refusal) -> Listed
    ensures { result ≡ listed_of (refuses r) }
{
    Listed {
        answer: Err(r),
        entries: ZEROS,
    }
}

// Reads a font into an index of so many entries: 9, and then what the font says.
pub fn list_font(font: &[u8], room: usize) -> Listed
    ensures { result ≡ listed_of (font_reading room font.now) }
{
    if room < limits::MAX_CHARACTERS {
        return refuse(Refusal::of(Reason::AreaTooSmall));
    }
    let mut codes = [0i32; limits::MAX_CHARACTERS];
    let mut starts = [0usize; limits::MAX_CHARACTERS];
    let mut widths = [0usize; limits::MAX_CHARACTERS];
    match reader::read_lists(font, &mut codes, &mut starts, &mut widths) {
        Ok(read) => Listed {
            answer: Ok(read),
            entries: list_entries(&codes, &starts, &widths, read.count),
        },
        Err(r) => refuse(r),
    }
}
