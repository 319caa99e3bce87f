// The check of another program's drawing for programs in C and Rust.
ghost use Rattle.std.specs.Prelude.{◌≡◌, length};
ghost use Rattle.ground.specs.Area.{zeros};
ghost use Rattle.drawingcheck.specs.CheckDrawing.{drawing_checked};
ghost use Rattle.answers.specs.Numbers.{check_number};

// Checks a FIGure and a list of overlaps. Refusals: 9, 1 to 8, 10 to 14, 15, 16, 25.
#[unsafe(no_mangle)]
pub extern "C" fn wattleslate_check_drawing(
    font: &[u8],
    control: &[u8],
    text: &[u8],
    figure: &[u8],
    overlaps: &[usize],
    scratch: &mut [u8],
) -> u64
    ensures answer { result ≡ check_number (drawing_checked (length scratch.old) font.now control.now text.now overlaps.now figure.now) }
    ensures scratch { scratch.new ≡ zeros (length scratch.old) }
{
    let answer = wattleslate::check_drawing(font, control, text, figure, overlaps, scratch);
    answers::check_number(answer)
}
