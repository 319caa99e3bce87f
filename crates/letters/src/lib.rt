// The letters of a pack, found by their codes: those of a text's bytes by one look into two lists, the others by a walk over the records' heads.
#![tactic(auto)]

ghost use Rattle.std.specs.Prelude.{◌≡◌, List, ℕ, ◌+◌, ◌*◌, ◌<◌, ◌≤◌, length, get_or};
ghost use Rattle.ground.specs.Limits.{max_height, max_pack_length};
ghost use Rattle.index.specs.Latest.{small_codes};
ghost use Rattle.records.specs.Codes.{bits_of};
ghost use Rattle.records.specs.Versions.{head_length};
ghost use Rattle.records.specs.Places.{place_in};
ghost use Rattle.heads.specs.Pack.{says, meaning};
ghost use Rattle.letters.specs.Held.{held_at, LetterNoted, Held, LettersHeld};

use index::latest;
use records::{Head, Place, Record, bits_of, find_from, head_length, skim_part};
use subchars::Code;

// The place that two entries of the lists hold.
fn held_at(start: usize, width: usize) -> Option<Place>
    ensures { result ≡ held_at start width }
{
    if start == 0 {
        return None;
    }
    Some(Place { at: start, width })
}

// Notes where a live record of a small code starts, and its width, unless the code was noted before.
fn note(starts: &mut [usize], widths: &mut [usize], at: usize, found: Record)
    requires { (small_codes ≤ length starts.old) × (small_codes ≤ length widths.old) }
    ensures { LetterNoted found.live found.code at found.width starts.old widths.old starts.new widths.new }
{
    let code = found.code;
    if !found.live {
        return;
    }
    if latest::SMALL_CODES <= code {
        return;
    }
    if starts[code] == 0 {
        starts[code] = at;
        widths[code] = found.width;
    }
}

// Notes the live records of the small codes.
pub fn hold_letters(head: Head, pack: &[u8], starts: &mut [usize], widths: &mut [usize])
    requires by_index { (records : List (List ℕ)) × (meaning pack.now ≡ says head records) }
    requires small_codes_in_bounds { (small_codes ≤ length starts.old) × (small_codes ≤ length widths.old) }
    ensures { (records : List (List ℕ)) → meaning pack.now ≡ says head records → Held head records starts.new widths.new }
{
    ground::fill_from(starts, 0, 0);
    let mut at = head_length(head.version);
    while let Some(found) = skim_part(head, &pack[at..]) {
        note(starts, widths, at, found);
        at += found.size;
    }
}

// Where the record of a code's letter starts, and its width.
pub fn find_letter(
    head: Head,
    pack: &[u8],
    starts: &[usize],
    widths: &[usize],
    code: Code,
) -> Option<Place>
    requires { LettersHeld head pack.now starts.now widths.now }
    ensures { (records : List (List ℕ)) → meaning pack.now ≡ says head records → result ≡ place_in head (bits_of code.0) (head_length head.version) records }
{
    let bits = bits_of(code);
    if bits < latest::SMALL_CODES {
        return held_at(starts[bits], widths[bits]);
    }
    find_from(head, pack, head_length(head.version), bits)
}

// Where the rows of a letter start that lie one after another from a place on.
pub fn letter_rows(rows: &mut [usize], place: usize, width: usize, height: usize)
    requires { (height ≤ length rows.old) × (height ≤ max_height) × (place + height * width ≤ max_pack_length) }
    ensures { (r : ℕ) → r < height → get_or rows.new r 0 ≡ place + r * width }
{
    for r in 0..height {
        rows[r] = place + r * width;
    }
}
