// Which of three a look-up comes to, as one entry after another is seen.
ghost use Rattle.std.specs.Prelude.{◌≡◌};
ghost use Rattle.finding.specs.Steps.{is_found, better};

use chars::Entry;
use reader::LookedUp;
use subchars::Code;

// Whether the code itself was found.
fn is_found(seen: LookedUp) -> bool
    ensures { result ≡ is_found seen }
{
    matches!(seen, LookedUp::Found(_))
}

// What the look-up comes to after one more entry is seen: that one is found, if it has the code; it stands in, if it has code 0 and none before it had
// the code itself.
pub fn better(seen: LookedUp, e: Entry, code: Code) -> LookedUp
    ensures { result ≡ better code seen e }
{
    if e.code == code {
        return LookedUp::Found(e);
    }
    if is_found(seen) {
        return seen;
    }
    if e.code == Code(0) {
        return LookedUp::StoodIn(e);
    }
    seen
}
