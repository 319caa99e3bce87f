// The character that a font has for a code, and the row request: where a row of it stands in the font.
#![tactic(auto)]

ghost use Rattle.std.specs.Prelude.{◌≡◌};
ghost use Rattle.font.specs.Font.{reading};
ghost use Rattle.request.specs.Request.{sought, row_request};

use chars::Entry;
use ground::limits;
use ground::refusals::{Reason, Refusal};
use lines::Cursor;
use subchars::Code;

// The character that a font has for a code, with the font's height.
#[derive(Clone, Copy)]
pub struct Sought {
    pub height: usize,
    pub entry: Entry,
}

// Where a row starts in a font, and how wide it is.
#[derive(Clone, Copy)]
pub struct RowPlace {
    pub place: usize,
    pub width: usize,
}

// Reads a font, and looks a code up in it; there may be no drawing for it.
pub fn seek(font: &[u8], code: Code) -> Result<Option<Sought>, Refusal>
    ensures { result ≡ sought code (reading font.now) }
{
    let mut codes = [0i32; limits::MAX_CHARACTERS];
    let mut starts = [0usize; limits::MAX_CHARACTERS];
    let mut widths = [0usize; limits::MAX_CHARACTERS];
    let read = reader::read_lists(font, &mut codes, &mut starts, &mut widths)?;
    let height = read.header.height;
    let Some(entry) = reader::find_entry(&codes, &starts, &widths, read.count, code) else {
        return Ok(None);
    };
    Ok(Some(Sought { height, entry }))
}

// Where a row stands: as many lines behind the character's first row line as the row number says.
pub fn request(font: &[u8], code: Code, row: usize) -> Result<RowPlace, Refusal>
    ensures { result ≡ row_request font.now code row }
{
    match seek(font, code) {
        Ok(found) => match found {
            Some(sought) if row < sought.height => {
                let first = Cursor {
                    at: sought.entry.start,
                };
                Ok(RowPlace {
                    place: first.skip(font, row).next.at,
                    width: sought.entry.width,
                })
            }
            _ => Err(Refusal::of(Reason::BadShape)),
        },
        Err(r) => Err(r),
    }
}
