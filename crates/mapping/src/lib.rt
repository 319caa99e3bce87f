// What a code maps to by the commands that four lists hold: one look at each command.
#![tactic(auto)]

ghost use Rattle.std.specs.Prelude.{◌≡◌, List};
ghost use Rattle.std.specs.Int.{w32};
ghost use Rattle.std.proofs.Common.{SFits};
ghost use Rattle.flc.specs.declared.Command.{Command};
ghost use Rattle.mapping.specs.Mapping.{in_range, moved};
ghost use Rattle.mapping.specs.Passing.{SoundCommand, Usable, pass_all, pass_command, passing};
ghost use Rattle.flc.specs.Filling.{HoldsCommands};

use flc::Command;
use subchars::Code;

// A code on its way through the commands; the stages from `lowest` on may still act on it.
#[derive(Clone, Copy)]
pub struct Passing {
    pub lowest: usize,
    pub code: Code,
}

fn in_range(first: Code, last: Code, code: Code) -> bool
    ensures { result ≡ in_range first last code }
{
    first.0 <= code.0 && code.0 <= last.0
}

// The code as far from the first new code as the old one from the first.
fn new_code(first: Code, first_new: Code, code: Code) -> Code
    requires { SFits w32 (moved first first_new code).0 }
    ensures { result ≡ moved first first_new code }
{
    Code((first_new.0 as i64 + (code.0 as i64 - first.0 as i64)) as i32)
}

// A code behind one more command.
fn pass_command(c: Command, p: Passing) -> Passing
    requires { SoundCommand c }
    ensures { result ≡ pass_command c p }
{
    if c.stage < p.lowest {
        return p;
    }
    let first = c.first;
    let last = c.last;
    let first_new = c.first_new;
    let code = p.code;
    if in_range(first, last, code) {
        return Passing {
            lowest: c.stage + 1,
            code: new_code(first, first_new, code),
        };
    }
    p
}

// What a code maps to by the first `count` commands of the lists.
pub fn map_by(
    stages: &[usize],
    firsts: &[i32],
    lasts: &[i32],
    news: &[i32],
    count: usize,
    code: Code,
) -> Code
    requires { Usable count stages.now firsts.now lasts.now news.now }
    ensures { (cs : List Command) → HoldsCommands cs count stages.now firsts.now lasts.now news.now → result ≡ (pass_all cs (passing 0 code)).code }
{
    let mut p = Passing { lowest: 0, code };
    let mut i: usize = 0;
    while i < count {
        let c = Command {
            stage: stages[i],
            first: Code(firsts[i]),
            last: Code(lasts[i]),
            first_new: Code(news[i]),
        };
        p = pass_command(c, p);
        i += 1;
    }
    p.code
}
