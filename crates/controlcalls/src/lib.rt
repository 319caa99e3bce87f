// The public calls about one control file: reading it into lent lists, and mapping a code. Crate wattleslate passes them on.
#![tactic(auto)]

ghost use Rattle.std.specs.Prelude.{◌≡◌};
ghost use Rattle.flc.specs.Lists.{command_lists};
ghost use Rattle.controlcalls.specs.ControlCall.{ControlRead};
ghost use Rattle.controlcalls.specs.MapCall.{map_tells, map_told};

use ground::limits;
use ground::refusals::{Reason, Refusal};
use subchars::Code;

// Reads a control file into four lists of 256 entries or more, with zeros behind: each mapping command's stage, first and last code, and first
// new code. The answer counts commands and stages. A refusal (9 to 14) leaves the lists all zeros.
pub fn read_control(
    control: &[u8],
    stages: &mut [usize],
    firsts: &mut [i32],
    lasts: &mut [i32],
    news: &mut [i32],
) -> Result<flc::ControlRead, Refusal>
    ensures { ControlRead control.now (command_lists stages.old firsts.old lasts.old news.old) result (command_lists stages.new firsts.new lasts.new news.new) }
{
    let room = stages
        .len()
        .min(firsts.len())
        .min(lasts.len())
        .min(news.len());
    if room < limits::MAX_COMMANDS {
        return flc::refuse(
            Refusal::of(Reason::AreaTooSmall),
            stages,
            firsts,
            lasts,
            news,
        );
    }
    flc::read_lists(control, stages, firsts, lasts, news)
}

// Maps a code by a control file, stage after stage. Refusals are those of the file (10 to 14).
pub fn map_code(control: &[u8], code: Code) -> Result<Code, Refusal>
    ensures answer { map_tells result ≡ map_told control.now code }
{
    let mut stages = [0usize; limits::MAX_COMMANDS];
    let mut firsts = [0i32; limits::MAX_COMMANDS];
    let mut lasts = [0i32; limits::MAX_COMMANDS];
    let mut news = [0i32; limits::MAX_COMMANDS];
    let read = flc::read_lists(control, &mut stages, &mut firsts, &mut lasts, &mut news)?;
    Ok(mapping::map_by(&stages, &firsts, &lasts, &news, read.commands, code))
}
