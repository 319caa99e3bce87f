// The index of a font's characters in three lists of numbers, and look-up in it.
#![tactic(auto)]

pub mod latest;

ghost use Rattle.std.specs.Prelude.{◌≡◌};
ghost use Rattle.ground.specs.Limits.{max_characters};
ghost use Rattle.index.specs.Index.{listing_at, CharacterRoom, Indexed};
ghost use Rattle.index.specs.LookUp.{last_at, look_up};

use ground::refusals::Refusal;
use lines::Cursor;
use rows::Format;
use subchars::Code;

// Writes the characters of a font, from a cursor on, into the index: one pass over the font. The answer is how many they are.
pub fn fill(
    f: Format,
    s: &[u8],
    from: Cursor,
    codes: &mut [i32],
    starts: &mut [usize],
    widths: &mut [usize],
) -> Result<usize, Refusal>
    requires { CharacterRoom max_characters codes.old starts.old widths.old }
    ensures { Indexed (listing_at f s.now from.at) result codes.new starts.new widths.new }
{
    let mut cursor = from;
    let mut n: usize = 0;
    while let Some(listed) = chars::next_char(f, s, cursor, n)? {
        let entry = listed.entry;
        codes[n] = entry.code.0;
        starts[n] = entry.start;
        widths[n] = entry.width;
        n += 1;
        cursor = listed.next;
    }
    Ok(n)
}

// The last place of a code.
fn find(codes: &[i32], code: Code) -> Option<usize>
    ensures { result ≡ last_at code.0 codes.now }
{
    codes.iter().rposition(|&c| Code(c) == code)
}

// The place of the character that is used for a code: its own, or else that of code 0.
#[tactic(auto, unfolding(crate::specs::LookUp::look_up))]
pub fn look_up(codes: &[i32], code: Code) -> Option<usize>
    ensures { result ≡ look_up code codes.now }
{
    let Some(k) = find(codes, code) else {
        return find(codes, Code(0));
    };
    Some(k)
}
