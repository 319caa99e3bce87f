// The lent index as a slice of entries, filled: the one function that does it only moves whole entries; what is moved is decided below it.
#![tactic(auto)]

mod listing;

ghost use Rattle.std.specs.Prelude.{◌≡◌, length};
ghost use Rattle.entries.specs.Filling.{font_reading, index_of, font_tells, font_told};

use chars::Entry;
use ground::refusals::Refusal;
use reader::FontRead;

// Reads a font into an index of 512 entries or more: its characters in file order, with zeros behind. A refusal (9, then 1 to 8) leaves the
// index all zeros.
pub fn read_font(font: &[u8], index: &mut [Entry]) -> Result<FontRead, Refusal>
    ensures answer { font_tells result ≡ font_told (font_reading (length index.old) font.now) }
    ensures index { index.new ≡ index_of (font_reading (length index.old) font.now) (length index.old) }
{
    let listed = listing::list_font(font, index.len());
    let entries = listed.entries;
    for i in 0..index.len() {
        index[i] = entries[i.min(listing::LAST)];
    }
    listed.answer
}
