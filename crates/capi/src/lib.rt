// The calls for programs in C and Rust: byte slices and numbers in, one number out. Each is total, as the calls that it stands on.
#![tactic(auto)]

pub mod checks;
pub mod fonts;
pub mod packs;

ghost use Rattle.std.specs.Prelude.{◌≡◌, length};
ghost use Rattle.ground.specs.Area.{zeros};
ghost use Rattle.font.specs.Font.{reading};
ghost use Rattle.flc.specs.Control.{control};
ghost use Rattle.reader.specs.Reader.{font_answer};
ghost use Rattle.controlcalls.specs.ControlCall.{control_told};
ghost use Rattle.wattleslate.specs.DrawCall.{draw_told, draw_output};
ghost use Rattle.twolines.specs.TwoLines.{draw_lines, lines_told, lines_output};
ghost use Rattle.wrapping.specs.Wrapping.{draw_wrapped, wrap_in, wrap_answer, wrap_firsts, wrap_ends, wrap_output};
ghost use Rattle.answers.specs.Numbers.{font_number, control_number, draw_number, wrap_number, join_number, stack_number};
ghost use Rattle.capi.specs.Numbers.{legal_mode, join_taken, join_left, stack_taken, stack_left};

use ground::limits;
use ground::refusals::{Reason, Refusal};
use subchars::{Direction, Layout, SubCharacter, VerticalLayout};

// Reads a font, and answers its height and how many characters it has. Refusals 1 to 8.
#[unsafe(no_mangle)]
pub extern "C" fn wattleslate_check_font(font: &[u8]) -> u64
    ensures answer { result ≡ font_number (font_answer (reading font.now)) }
{
    let mut codes = [0i32; limits::MAX_CHARACTERS];
    let mut starts = [0usize; limits::MAX_CHARACTERS];
    let mut widths = [0usize; limits::MAX_CHARACTERS];
    let answer = reader::read_lists(font, &mut codes, &mut starts, &mut widths);
    answers::font_number(answer)
}

// Reads a control file, and answers how many stages and commands it has. Refusals 10 to 14.
#[unsafe(no_mangle)]
pub extern "C" fn wattleslate_check_control(file: &[u8]) -> u64
    ensures answer { result ≡ control_number (control_told (control file.now)) }
{
    let mut stages = [0usize; limits::MAX_COMMANDS];
    let mut firsts = [0i32; limits::MAX_COMMANDS];
    let mut lasts = [0i32; limits::MAX_COMMANDS];
    let mut news = [0i32; limits::MAX_COMMANDS];
    let answer = flc::read_lists(file, &mut stages, &mut firsts, &mut lasts, &mut news);
    answers::control_number(answer)
}

// Draws a line of text, and answers how many text bytes drew nothing, how many were stood in, and the width: `wattleslate::draw`.
#[unsafe(no_mangle)]
pub extern "C" fn wattleslate_draw(
    font: &[u8],
    control: &[u8],
    text: &[u8],
    scratch: &mut [u8],
    out: &mut [u8],
) -> u64
    ensures answer { result ≡ draw_number (draw_told (length scratch.old) font.now control.now text.now (length out.old)) }
    ensures output { out.new ≡ draw_output (length scratch.old) font.now control.now text.now (length out.old) }
    ensures scratch { scratch.new ≡ zeros (length scratch.old) }
{
    answers::draw_number(wattleslate::draw(font, control, text, scratch, out))
}

// Whether two numbers are a Full_Layout and a Print_Direction that a header may have.
pub(crate) fn legal_mode(layout: usize, direction: usize) -> bool
    ensures { result ≡ legal_mode layout direction }
{
    layout <= limits::MAX_FULL_LAYOUT && direction <= limits::MAX_DIRECTION
}

// Joins a FIGcharacter to a line, and answers overlap and width: `wattleslate::join`, with the layout as a Full_Layout (0 to 32,767) and the direction
// as a Print_Direction (0 or 1). Any other number is refused 17.
#[unsafe(no_mangle)]
pub extern "C" fn wattleslate_join(
    line: &[u8],
    line_width: usize,
    character: &[u8],
    character_width: usize,
    height: usize,
    hardblank: u8,
    layout: usize,
    direction: usize,
    out: &mut [u8],
) -> u64
    ensures answer { result ≡ join_number (join_taken layout direction hardblank height line_width line.now character_width character.now (length out.old)) }
    ensures area { out.new ≡ join_left layout direction hardblank height line_width line.now character_width character.now (length out.old) }
{
    if !legal_mode(layout, direction) {
        ground::zero_from(out, 0);
        return answers::refusal_number(Refusal::of(Reason::BadShape));
    }
    answers::join_number(wattleslate::join(
        line,
        line_width,
        character,
        character_width,
        height,
        SubCharacter(hardblank),
        Layout::from_full(layout),
        Direction::from_print(direction),
        out,
    ))
}

// Stacks a lower block under an upper one, and answers overlap, height and width: `wattleslate::stack`, with the layout as a Full_Layout (0 to 32,767),
// of which the vertical part is read. Any other number is refused 17.
#[unsafe(no_mangle)]
pub extern "C" fn wattleslate_stack(
    upper: &[u8],
    upper_width: usize,
    upper_height: usize,
    lower: &[u8],
    lower_width: usize,
    lower_height: usize,
    hardblank: u8,
    layout: usize,
    out: &mut [u8],
) -> u64
    ensures answer { result ≡ stack_number (stack_taken layout hardblank upper_height upper_width upper.now lower_height lower_width lower.now (length out.old)) }
    ensures area { out.new ≡ stack_left layout hardblank upper_height upper_width upper.now lower_height lower_width lower.now (length out.old) }
{
    if limits::MAX_FULL_LAYOUT < layout {
        ground::zero_from(out, 0);
        return answers::refusal_number(Refusal::of(Reason::BadShape));
    }
    answers::stack_number(wattleslate::stack(
        upper,
        upper_width,
        upper_height,
        lower,
        lower_width,
        lower_height,
        SubCharacter(hardblank),
        VerticalLayout::from_full(layout),
        out,
    ))
}

// Draws two texts one above the other, and answers overlap, height and width: `wattleslate::draw_stacked`.
#[unsafe(no_mangle)]
pub extern "C" fn wattleslate_draw_stacked(
    font: &[u8],
    control: &[u8],
    upper: &[u8],
    lower: &[u8],
    scratch: &mut [u8],
    out: &mut [u8],
) -> u64
    ensures answer { result ≡ stack_number (lines_told (draw_lines (length scratch.old) font.now control.now upper.now lower.now) (length out.old)) }
    ensures output { out.new ≡ lines_output (draw_lines (length scratch.old) font.now control.now upper.now lower.now) (length out.old) }
    ensures scratch { scratch.new ≡ zeros (length scratch.old) }
{
    answers::lines_number(wattleslate::draw_stacked(font, control, upper, lower, scratch, out))
}

// Draws a text in lines, and answers how many text bytes drew nothing, how many were stood in, and how many lines: `wattleslate::draw_wrapped`.
#[unsafe(no_mangle)]
pub extern "C" fn wattleslate_draw_wrapped(
    font: &[u8],
    control: &[u8],
    text: &[u8],
    limit: usize,
    scratch: &mut [u8],
    firsts: &mut [usize],
    ends: &mut [usize],
    out: &mut [u8],
) -> u64
    ensures answer { result ≡ wrap_number (wrap_answer (wrap_in (length out.old) (draw_wrapped (length firsts.old) (length ends.old) (length scratch.old) font.now control.now limit text.now))) }
    ensures firsts { firsts.new ≡ wrap_firsts (draw_wrapped (length firsts.old) (length ends.old) (length scratch.old) font.now control.now limit text.now) (length out.old) (length firsts.old) }
    ensures ends { ends.new ≡ wrap_ends (draw_wrapped (length firsts.old) (length ends.old) (length scratch.old) font.now control.now limit text.now) (length out.old) (length ends.old) }
    ensures output { out.new ≡ wrap_output (draw_wrapped (length firsts.old) (length ends.old) (length scratch.old) font.now control.now limit text.now) (length out.old) }
    ensures scratch { scratch.new ≡ zeros (length scratch.old) }
{
    let answer = wattleslate::draw_wrapped(font, control, text, limit, scratch, firsts, ends, out);
    answers::wrap_number(answer)
}
