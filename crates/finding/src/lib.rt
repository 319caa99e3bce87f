// The lent index as a slice of entries, read: the one function that does it only takes whole entries; what becomes of them is decided below it.
#![tactic(auto)]

mod seen;

ghost use Rattle.std.specs.Prelude.{◌≡◌};
ghost use Rattle.finding.specs.Finding.{entry_tells, found_told};

use chars::Entry;
use reader::LookedUp;
use subchars::Code;

// Looks a code up in the first `count` entries of a list: the last that has it is found, or else the last with code 0 stands in. A count beyond the
// list's end is its length.
pub fn find_in(index: &[Entry], count: usize, code: Code) -> LookedUp
    ensures answer { entry_tells result ≡ found_told index.now count code }
{
    let mut seen = LookedUp::Nothing;
    for i in 0..count.min(index.len()) {
        seen = seen::better(seen, index[i], code);
    }
    seen
}
