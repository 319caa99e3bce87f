// A line of text drawn by a font and a control file.
#![tactic(auto)]

ghost use Rattle.std.specs.Prelude.{◌≡◌, ◌≤◌, length};
ghost use Rattle.ground.specs.Area.{zeros};
ghost use Rattle.ground.specs.Limits.{min_scratch};
ghost use Rattle.drawing.specs.Drawing.{lined_of, draw_lined, PutOut};

use drawing::DrawAnswer;
use ground::limits;
use ground::refusals::{Reason, Refusal};
use index::latest;
use source::Origin;

// Reads the font and draws a text: its refusals, the control file's, 15, 16, then 9 for the output.
fn draw_once(
    out: &mut [u8],
    area: &mut [u8],
    text: &[u8],
    font: &[u8],
    control: &[u8],
) -> DrawAnswer
    requires { min_scratch ≤ length area.old }
    ensures { PutOut (lined_of font.now control.now text.now) (length out.old) result out.new }
{
    let mut codes = [0i32; limits::MAX_CHARACTERS];
    let mut starts = [0usize; limits::MAX_CHARACTERS];
    let mut widths = [0usize; limits::MAX_CHARACTERS];
    let mut places = [0usize; latest::SMALL_CODES];
    match fontlists::read_font(font, &mut codes, &mut starts, &mut widths, &mut places) {
        Ok(read) => drawing::draw_mapped(
            out,
            area,
            text,
            drawing::mode_of(read.header),
            read.header.height,
            font,
            font,
            Origin::Font { count: read.count },
            &codes,
            &starts,
            &widths,
            &places,
            control,
        ),
        Err(r) => drawing::refuse(r, out),
    }
}

// 9 for a scratch under 32,000 bytes; otherwise the drawing, which leaves anything in the scratch.
fn draw_tested(
    out: &mut [u8],
    scratch: &mut [u8],
    text: &[u8],
    font: &[u8],
    control: &[u8],
) -> DrawAnswer
    ensures { PutOut (draw_lined (length scratch.old) font.now control.now text.now) (length out.old) result out.new }
{
    if scratch.len() < limits::MIN_SCRATCH {
        return drawing::refuse(Refusal::of(Reason::AreaTooSmall), out);
    }
    draw_once(out, scratch, text, font, control)
}

// Draws a text by a font and a control file: 9 for the scratch, the font's, the control file's, 15, 16, then 9 for the output. The scratch is all zeros
// afterwards.
pub fn draw(
    font: &[u8],
    control: &[u8],
    text: &[u8],
    scratch: &mut [u8],
    out: &mut [u8],
) -> DrawAnswer
    ensures put_out { PutOut (draw_lined (length scratch.old) font.now control.now text.now) (length out.old) result out.new }
    ensures scratch_after { scratch.new ≡ zeros (length scratch.old) }
{
    let answer = draw_tested(out, scratch, text, font, control);
    ground::zero_from(scratch, 0);
    answer
}
