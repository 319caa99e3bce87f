// Fonts in lists of numbers: one read into them, with the last places of its small codes, and a code looked up in two.
#![tactic(auto)]

pub mod two;

ghost use Rattle.std.specs.Prelude.{◌≡◌, length};
ghost use Rattle.ground.specs.Limits.{max_characters};
ghost use Rattle.index.specs.Index.{CharacterRoom};
ghost use Rattle.index.specs.Latest.{small_codes};
ghost use Rattle.fontlists.specs.Held.{FontHeldBy};

use ground::refusals::Refusal;
use index::latest;
use reader::FontRead;

// Reads a font into the lists, with the last place of each code below 256.
pub fn read_font(
    font: &[u8],
    codes: &mut [i32],
    starts: &mut [usize],
    widths: &mut [usize],
    places: &mut [usize],
) -> Result<FontRead, Refusal>
    requires character_room { CharacterRoom max_characters codes.old starts.old widths.old }
    requires places_len { length places.old ≡ small_codes }
    ensures { FontHeldBy font.now result codes.new starts.new widths.new places.new }
{
    let read = reader::read_lists(font, codes, starts, widths)?;
    latest::find_latest(&codes[..read.count], places);
    Ok(read)
}
