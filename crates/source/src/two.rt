// The characters of two fonts: which one is drawn for a code, and whether one stands in.
ghost use Rattle.std.specs.Prelude.{List, ℕ, ◌≤◌, length};
ghost use Rattle.ground.specs.Limits.{max_height};
ghost use Rattle.source.specs.Source.{Source, character_of};
ghost use Rattle.source.specs.Counting.{StandsIn};
ghost use Rattle.fontlists.specs.TwoFonts.{bytes_in};
ghost use Rattle.source.specs.Held.{TwoGives};
ghost use Rattle.source.specs.Steps.{PickedAs, Stands, as_own};

use crate::{Chosen, Picked, show_entry};
use chars::Entry;
use fontlists::two;
use fontlists::two::{LookedUpInTwo, Which};
use subchars::Code;

// Whether either font has a character with code 0, which stands in for every code that both lack.
pub(crate) fn stands_in(
    first: usize,
    second: usize,
    codes: &[i32],
    starts: &[usize],
    widths: &[usize],
    places: &[usize],
) -> bool
    requires { (source : Source) × (s : List ℕ) × (t : List ℕ) × (height : ℕ) × TwoGives source s t height first second codes.now starts.now widths.now places.now }
    ensures { (source : Source) (s t : List ℕ) (height : ℕ) → TwoGives source s t height first second codes.now starts.now widths.now places.now → StandsIn result source }
{
    match two::look_up(Code(0), first, second, codes, starts, widths, places) {
        LookedUpInTwo::Found { font: _, entry: _ } => true,
        LookedUpInTwo::StoodIn { font: _, entry: _ } => true,
        LookedUpInTwo::Nothing => false,
    }
}

// The character of an entry in one of two fonts; where its rows start is written into a lent list.
fn show_in<'a>(
    which: Which,
    entry: Entry,
    own: bool,
    font: &'a [u8],
    second: &'a [u8],
    height: usize,
    found: &mut [usize],
) -> Picked
    requires stands { Stands (bytes_in which font.now second.now) entry height }
    requires max_height_in_bounds { max_height ≤ length found.old }
    ensures { PickedAs font.now second.now found.new height result (as_own own (character_of (bytes_in which font.now second.now) entry)) }
{
    let bytes = two::bytes_in(which, font, second);
    let chosen = show_entry(entry, own, bytes, height, found);
    Picked {
        chosen,
        font: which,
    }
}

// The character that two fonts have for a code; where its rows start is written into a lent list.
pub(crate) fn choose<'a>(
    code: Code,
    font: &'a [u8],
    second: &'a [u8],
    height: usize,
    count: usize,
    other: usize,
    codes: &[i32],
    starts: &[usize],
    widths: &[usize],
    places: &[usize],
    found: &mut [usize],
) -> Picked
    requires two_gives { (source : Source) × TwoGives source font.now second.now height count other codes.now starts.now widths.now places.now }
    requires max_height_in_bounds { max_height ≤ length found.old }
    ensures { (source : Source) → TwoGives source font.now second.now height count other codes.now starts.now widths.now places.now → PickedAs font.now second.now found.new height result (source code) }
{
    match two::look_up(code, count, other, codes, starts, widths, places) {
        LookedUpInTwo::Found { font: which, entry } => {
            show_in(which, entry, true, font, second, height, found)
        }
        LookedUpInTwo::StoodIn { font: which, entry } => {
            show_in(which, entry, false, font, second, height, found)
        }
        LookedUpInTwo::Nothing => Picked {
            chosen: Chosen::Nothing,
            font: Which::First,
        },
    }
}
