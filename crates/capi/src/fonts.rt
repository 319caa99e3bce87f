// The call on two fonts for programs in C and Rust.
ghost use Rattle.std.specs.Prelude.{◌≡◌, length};
ghost use Rattle.ground.specs.Area.{zeros, padded};
ghost use Rattle.drawing.specs.Drawing.{lined_answer, bytes_of};
ghost use Rattle.twofonts.specs.TwoDrawing.{two_lined};
ghost use Rattle.wattleslate.specs.DrawCall.{draw_tells};
ghost use Rattle.answers.specs.Numbers.{draw_number};

// Draws a text by two fonts. Refusals: 9, 1 to 8 of the first and of the second, 24, 10 to 14, 15, 16, 9.
#[unsafe(no_mangle)]
pub extern "C" fn wattleslate_draw_two<'a>(
    first: &'a [u8],
    second: &'a [u8],
    control: &[u8],
    text: &[u8],
    scratch: &mut [u8],
    out: &mut [u8],
) -> u64
    ensures answer { result ≡ draw_number (draw_tells (lined_answer (two_lined (length scratch.old) first.now second.now control.now text.now) (length out.old))) }
    ensures output { out.new ≡ padded (bytes_of (two_lined (length scratch.old) first.now second.now control.now text.now) (length out.old)) (length out.old) }
    ensures scratch { scratch.new ≡ zeros (length scratch.old) }
{
    answers::draw_number(wattleslate::draw_two(first, second, control, text, scratch, out))
}
