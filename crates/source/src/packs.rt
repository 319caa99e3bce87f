// The characters of a pack: where a letter's rows stand, and which letter is drawn for a code.
ghost use Rattle.std.specs.Prelude.{◌≡◌, List, ℕ, ◌≤◌, pos, length};
ghost use Rattle.ground.specs.Limits.{max_height, min_pack_length};
ghost use Rattle.records.specs.Codes.{bits_of};
ghost use Rattle.records.specs.Versions.{head_length};
ghost use Rattle.records.specs.Places.{place_in};
ghost use Rattle.heads.specs.Pack.{head_in, says, meaning};
ghost use Rattle.letters.specs.Held.{or_else_place, LettersHeld};
ghost use Rattle.source.specs.Source.{Source};
ghost use Rattle.source.specs.Counting.{StandsIn};
ghost use Rattle.source.specs.Held.{PackGives};
ghost use Rattle.source.specs.Steps.{ChosenAs, PlaceIn, letter_choice};

use crate::Chosen;
use ground::limits;
use records::{Head, Place, record_head_length};
use subchars::Code;

// What the head of a pack says.
fn head_in(pack: &[u8]) -> Head
    requires { min_pack_length ≤ length pack.now }
    ensures { result ≡ head_in pack.now }
{
    heads::head_of(&pack[0..limits::MIN_PACK_LENGTH])
}

// Whether a pack has a letter with code 0, which stands in for every code that it lacks.
pub(crate) fn stands_in(pack: &[u8], height: usize, starts: &[usize], widths: &[usize]) -> bool
    requires { (source : Source) × PackGives source pack.now height starts.now widths.now }
    ensures { (source : Source) → PackGives source pack.now height starts.now widths.now → StandsIn result source }
{
    let head = head_in(pack);
    letters::find_letter(head, pack, starts, widths, Code(0)).is_some()
}

// The letter at a place as a character; where its rows start is written into a lent list.
fn show_letter(
    head: Head,
    pack: &[u8],
    place: Option<Place>,
    own: bool,
    found: &mut [usize],
) -> Chosen
    requires place_in { PlaceIn head pack.now place }
    requires max_height_in_bounds { max_height ≤ length found.old }
    ensures { ChosenAs pack.now found.new head.height result (letter_choice head pack.now own place) }
{
    match place {
        Some(letter) => {
            let first = letter.at + record_head_length(head.version);
            let width = letter.width;
            letters::letter_rows(found, first, width, head.height);
            Chosen::Character { width, own }
        }
        None => Chosen::Nothing,
    }
}

// The place of a code's own letter where it has one, else that of the letter with code 0.
fn own_or_zeroth(
    head: Head,
    pack: &[u8],
    starts: &[usize],
    widths: &[usize],
    its: Option<Place>,
) -> Option<Place>
    requires { LettersHeld head pack.now starts.now widths.now }
    ensures { (records : List (List ℕ)) → meaning pack.now ≡ says head records → result ≡ or_else_place its (place_in head (bits_of (pos 0)) (head_length head.version) records) }
{
    if its.is_some() {
        return its;
    }
    letters::find_letter(head, pack, starts, widths, Code(0))
}

// The letter that a pack has for a code; where its rows start is written into a lent list.
pub(crate) fn choose_letter(
    code: Code,
    pack: &[u8],
    height: usize,
    starts: &[usize],
    widths: &[usize],
    found: &mut [usize],
) -> Chosen
    requires pack_gives { (source : Source) × PackGives source pack.now height starts.now widths.now }
    requires max_height_in_bounds { max_height ≤ length found.old }
    ensures { (source : Source) → PackGives source pack.now height starts.now widths.now → ChosenAs pack.now found.new height result (source code) }
{
    let head = head_in(pack);
    let its = letters::find_letter(head, pack, starts, widths, code);
    let place = own_or_zeroth(head, pack, starts, widths, its);
    show_letter(head, pack, place, its.is_some(), found)
}
