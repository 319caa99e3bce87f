// The last place of each small code in an index, found in one pass, so that the codes of a text's bytes are looked up at once.
ghost use Rattle.std.specs.Prelude.{◌≡◌, length};
ghost use Rattle.index.specs.LookUp.{last_at, look_up};
ghost use Rattle.index.specs.Latest.{small_codes, small_of, Latest, Noted};

use crate::find;
use subchars::Code;

// The small codes are those of a text's bytes: 0 to 255.
pub const SMALL_CODES: usize = 256;

const FIRST_BEYOND: i32 = SMALL_CODES as i32;

// A small code as a place in the list; none for another code.
#[tactic(auto, unfolding(crate::specs::Latest::small_of))]
fn as_small(code: Code) -> Option<usize>
    ensures { result ≡ small_of code.0 }
{
    let z = code.0;
    if z < 0 || FIRST_BEYOND <= z {
        return None;
    }
    Some(z as usize)
}

// Notes a place for a code, if it is small.
fn note(latest: &mut [usize], code: Code, place: usize)
    requires { length latest.old ≡ small_codes }
    ensures { Noted code.0 place latest.old latest.new }
{
    if let Some(c) = as_small(code) {
        latest[c] = place;
    }
}

// Writes for each small code one more than its last place, or 0 where it has none.
pub fn find_latest(codes: &[i32], latest: &mut [usize])
    requires { length latest.old ≡ small_codes }
    ensures { Latest codes.now latest.new }
{
    ground::fill_from(latest, 0, 0);
    for (i, &code) in codes.iter().enumerate() {
        note(latest, Code(code), i + 1);
    }
}

// The last place of a code; the list tells that of a small one.
fn find_known(codes: &[i32], latest: &[usize], code: Code) -> Option<usize>
    requires { Latest codes.now latest.now }
    ensures { result ≡ last_at code.0 codes.now }
{
    match as_small(code) {
        Some(c) => latest[c].checked_sub(1),
        None => find(codes, code),
    }
}

// Look-up by the list.
#[tactic(auto, unfolding(crate::specs::LookUp::look_up))]
pub fn look_up(codes: &[i32], latest: &[usize], code: Code) -> Option<usize>
    requires { Latest codes.now latest.now }
    ensures { result ≡ look_up code codes.now }
{
    let Some(k) = find_known(codes, latest, code) else {
        return find_known(codes, latest, Code(0));
    };
    Some(k)
}
