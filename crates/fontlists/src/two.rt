// Two fonts, which were read into the two halves of the lists: the four tries of a look-up.
ghost use Rattle.std.specs.Prelude.{◌≡◌, List, ℕ};
ghost use Rattle.header.specs.declared.Header.{Header};
ghost use Rattle.fontlists.specs.TwoFonts.{bytes_in, looked_up_in_two};
ghost use Rattle.fontlists.specs.Held.{TwoHeld};
ghost use Rattle.fontlists.specs.Steps.{either_of};

use chars::Entry;
use ground::limits;
use index::latest;
use reader::LookedUp;
use subchars::Code;

// Room for the characters of both fonts, and for the last places of their small codes.
pub const BOTH_CHARACTERS: usize = 2 * limits::MAX_CHARACTERS;

pub const BOTH_SMALL_CODES: usize = 2 * latest::SMALL_CODES;

// One of two fonts.
#[derive(Clone, Copy)]
pub enum Which {
    First,
    Second,
}

// Which of three looking a code up in two fonts came to, with the font that has the entry.
#[derive(Clone, Copy)]
pub enum LookedUpInTwo {
    Found { font: Which, entry: Entry },
    StoodIn { font: Which, entry: Entry },
    Nothing,
}

// The bytes of one of two fonts.
pub fn bytes_in<'a>(which: Which, first: &'a [u8], second: &'a [u8]) -> &'a [u8]
    ensures { result.now ≡ bytes_in which first.now second.now }
{
    match which {
        Which::First => first,
        Which::Second => second,
    }
}

// What two look-ups come to: no character stands in where either font has the code itself.
fn either_of(first: LookedUp, second: LookedUp) -> LookedUpInTwo
    ensures { result ≡ either_of first second }
{
    match first {
        LookedUp::Found(entry) => LookedUpInTwo::Found {
            font: Which::First,
            entry,
        },
        LookedUp::StoodIn(entry) => match second {
            LookedUp::Found(its) => LookedUpInTwo::Found {
                font: Which::Second,
                entry: its,
            },
            _ => LookedUpInTwo::StoodIn {
                font: Which::First,
                entry,
            },
        },
        LookedUp::Nothing => match second {
            LookedUp::Found(its) => LookedUpInTwo::Found {
                font: Which::Second,
                entry: its,
            },
            LookedUp::StoodIn(its) => LookedUpInTwo::StoodIn {
                font: Which::Second,
                entry: its,
            },
            LookedUp::Nothing => LookedUpInTwo::Nothing,
        },
    }
}

// Looks a code up in two fonts, of so many characters: in the first, in the second, then code 0 in the first, then in the second.
pub fn look_up(
    code: Code,
    first: usize,
    second: usize,
    codes: &[i32],
    starts: &[usize],
    widths: &[usize],
    places: &[usize],
) -> LookedUpInTwo
    requires { (s : List ℕ) × (t : List ℕ) × (h : Header) × (k : Header) × TwoHeld s t h k first second codes.now starts.now widths.now places.now }
    ensures { (s t : List ℕ) (h k : Header) (held : TwoHeld s t h k first second codes.now starts.now widths.now places.now) → result ≡ looked_up_in_two code held.first.characters held.second.characters }
{
    let half = limits::MAX_CHARACTERS;
    let small = latest::SMALL_CODES;
    let a = reader::find_known(
        &codes[..half],
        &starts[..half],
        &widths[..half],
        first,
        &places[..small],
        code,
    );
    let b = reader::find_known(
        &codes[half..],
        &starts[half..],
        &widths[half..],
        second,
        &places[small..],
        code,
    );
    either_of(reader::which_used(a, code), reader::which_used(b, code))
}
