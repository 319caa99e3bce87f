// Cuts input that arrives in parts into lines that end at LF, so that how a read splits the input does not matter.
#![tactic(auto)]

ghost use Rattle.std.specs.Prelude.{◌≡◌, ◌++◌, ◌≤◌, length, take};
ghost use Rattle.ground.specs.Runs.{run};
ghost use Rattle.cutting.specs.Cut.{not_lf};
ghost use Rattle.cutting.specs.Parts.{clipped, most_kept, Steps};

use ground::limits;

// Of a line one byte more is kept than a text may have, so that a line that is too long stays too long.
pub const MOST_KEPT: usize = limits::MAX_TEXT + 1;

// What is found in a part. `held` counts the bytes that are kept of a line.
#[derive(Clone, Copy)]
pub enum Step {
    // A line ends; the next one starts at `next`.
    Ended { held: usize, next: usize },
    // The part is used up and leaves a line begun, of which nothing is held where the part ends at LF.
    Begun { held: usize },
}

// Where the line that goes on in a part ends: at its LF, or at the part's end.
fn line_end(part: &[u8]) -> usize
    ensures { result ≡ run not_lf part.now }
{
    part.iter().position(|b| *b == b'\n').unwrap_or(part.len())
}

// Adds the part's bytes before `end` to a line of which `held` are kept; those past the most are dropped. Answers how many are kept.
fn keep(line: &mut [u8], held: usize, part: &[u8], end: usize) -> usize
    requires { (held ≤ most_kept) × (most_kept ≤ length line.old) × (end ≤ length part.now) }
    ensures { (result ≤ most_kept) × (take result line.new ≡ clipped (take held line.old ++ take end part.now)) }
{
    let n = end.min(MOST_KEPT - held);
    line[held..held + n].copy_from_slice(&part[..n]);
    held + n
}

// The next line of a part, where `held` bytes are kept of the line that the part goes on with. It lies in the first bytes of `line`.
pub fn next_line(line: &mut [u8], held: usize, part: &[u8]) -> Step
    requires { (held ≤ most_kept) × (most_kept ≤ length line.old) }
    ensures { Steps (take held line.old) part.now line.new result }
{
    let end = line_end(part);
    let n = keep(line, held, part, end);
    if end < part.len() {
        return Step::Ended {
            held: n,
            next: end + 1,
        };
    }
    Step::Begun { held: n }
}
