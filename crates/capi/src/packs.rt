// The calls on font packs for programs in C and Rust.
ghost use Rattle.std.specs.Prelude.{◌≡◌, length};
ghost use Rattle.ground.specs.Area.{zeros, padded};
ghost use Rattle.subchars.specs.Layouts.{print_direction_of};
ghost use Rattle.records.specs.Codes.{bits_of};
ghost use Rattle.heads.specs.Pack.{meaning};
ghost use Rattle.pack.specs.Calls.{check_told, find_told, tells, bytes_after, insertion, removal, compaction};
ghost use Rattle.drawing.specs.Drawing.{lined_answer, bytes_of};
ghost use Rattle.packdrawing.specs.PackDrawing.{pack_lined};
ghost use Rattle.wattleslate.specs.DrawCall.{draw_tells};
ghost use Rattle.answers.specs.Numbers.{pack_number, find_number, edit_number, draw_number};
ghost use Rattle.capi.specs.Numbers.{layout_by};

use crate::legal_mode;
use subchars::{Code, Direction, Layout, Smushing};

// Tests a pack, and answers its height and how many records are live. Refusal 20.
#[unsafe(no_mangle)]
pub extern "C" fn wattleslate_pack_check(pack: &[u8]) -> u64
    ensures answer { result ≡ pack_number (check_told (meaning pack.now)) }
{
    answers::pack_number(wattleslate::pack_check(pack))
}

// Where the rows of a code's letter start in a pack, and its width. Refusals: 20, 17, 22.
#[unsafe(no_mangle)]
pub extern "C" fn wattleslate_pack_find(pack: &[u8], code: i32) -> u64
    ensures answer { result ≡ find_number (find_told (meaning pack.now) (bits_of code)) }
{
    answers::find_number(wattleslate::pack_find(pack, Code(code)))
}

// Puts a letter into a pack. Refusals: 20, 17, 21, 23.
#[unsafe(no_mangle)]
pub extern "C" fn wattleslate_pack_put(pack: &mut [u8], code: i32, width: usize, rows: &[u8]) -> u64
    ensures answer { result ≡ edit_number (tells (insertion (meaning pack.old) (length pack.old) (bits_of code) width rows.now)) }
    ensures bytes { pack.new ≡ bytes_after pack.old (insertion (meaning pack.old) (length pack.old) (bits_of code) width rows.now) }
{
    answers::edit_number(wattleslate::pack_put(pack, Code(code), width, rows))
}

// Frees the record of a code's letter. Refusals: 20, 17, 22.
#[unsafe(no_mangle)]
pub extern "C" fn wattleslate_pack_remove(pack: &mut [u8], code: i32) -> u64
    ensures answer { result ≡ edit_number (tells (removal (meaning pack.old) (bits_of code))) }
    ensures bytes { pack.new ≡ bytes_after pack.old (removal (meaning pack.old) (bits_of code)) }
{
    answers::edit_number(wattleslate::pack_remove(pack, Code(code)))
}

// Drops the free records of a pack. Refusal 20.
#[unsafe(no_mangle)]
pub extern "C" fn wattleslate_pack_compact(pack: &mut [u8]) -> u64
    ensures answer { result ≡ edit_number (tells (compaction (meaning pack.old))) }
    ensures bytes { pack.new ≡ bytes_after pack.old (compaction (meaning pack.old)) }
{
    answers::edit_number(wattleslate::pack_compact(pack))
}

// The layout that two numbers say, or one of bad shape.
fn layout_by(layout: usize, direction: usize) -> Layout
    ensures { result ≡ layout_by layout direction }
{
    if legal_mode(layout, direction) {
        return Layout::from_full(layout);
    }
    Layout::Smushing(Smushing::Controlled(0))
}

// Draws a text by a pack. Refusals: 9, 20, 17, 10 to 14, 15, 16, 9.
#[unsafe(no_mangle)]
pub extern "C" fn wattleslate_draw_pack(
    pack: &[u8],
    layout: usize,
    direction: usize,
    control: &[u8],
    text: &[u8],
    scratch: &mut [u8],
    out: &mut [u8],
) -> u64
    ensures answer { result ≡ draw_number (draw_tells (lined_answer (pack_lined (length scratch.old) pack.now (layout_by layout direction) (print_direction_of direction) control.now text.now) (length out.old))) }
    ensures output { out.new ≡ padded (bytes_of (pack_lined (length scratch.old) pack.now (layout_by layout direction) (print_direction_of direction) control.now text.now) (length out.old)) (length out.old) }
    ensures scratch { scratch.new ≡ zeros (length scratch.old) }
{
    let taken = layout_by(layout, direction);
    let print = Direction::from_print(direction);
    answers::draw_number(wattleslate::draw_pack(pack, taken, print, control, text, scratch, out))
}
