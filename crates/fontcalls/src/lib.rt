// The public calls that ask one font: a look-up, and a row as a part of the font. Crate wattleslate passes them on.
#![tactic(auto)]

ghost use Rattle.std.specs.Prelude.{◌≡◌};
ghost use Rattle.request.specs.Request.{row_request};
ghost use Rattle.fontcalls.specs.LookUpCall.{look_up_tells, look_up_told};
ghost use Rattle.fontcalls.specs.RowCall.{row_tells, row_told, row_bytes, LiesAt};

use ground::refusals::Refusal;
use reader::LookedUp;
use request::RowPlace;
use subchars::Code;

// Looks a code up in a font: the last character that has it is found, or else the last with code 0 stands in. The font's refusals.
pub fn look_up(font: &[u8], code: Code) -> Result<LookedUp, Refusal>
    ensures answer { look_up_tells result ≡ look_up_told font.now code }
{
    let sought = request::seek(font, code)?;
    Ok(match sought {
        Some(it) => reader::which_of(it.entry, code),
        None => LookedUp::Nothing,
    })
}

// A row of the character that is used for a code, as a part of the font: its bytes as they stand there. A refused row is empty.
pub fn row<'a>(font: &'a [u8], code: Code, row: usize) -> &'a [u8]
    ensures part { result.now ≡ row_bytes font.now code row }
    ensures place { LiesAt font.entry (row_request font.now code row) result }
{
    match request::request(font, code, row) {
        Ok(at) => {
            let end = at.place + at.width;
            &font[at.place..end]
        }
        Err(_) => &font[0..0],
    }
}

// The same row request: where in the font the row starts and how wide it is; or the refusal, the font's or else 17.
#[tactic(auto, unfolding(crate::specs::RowCall::row_told))]
pub fn row_refusal(font: &[u8], code: Code, row: usize) -> Result<RowPlace, Refusal>
    ensures answer { row_tells result ≡ row_told font.now code row }
{
    request::request(font, code, row)
}
