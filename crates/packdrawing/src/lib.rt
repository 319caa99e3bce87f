// Drawing a line of text from a pack.
#![tactic(auto)]

ghost use Rattle.std.specs.Prelude.{◌≡◌, List, ℕ, ◌≤◌, length};
ghost use Rattle.ground.specs.Area.{zeros};
ghost use Rattle.ground.specs.Limits.{min_scratch};
ghost use Rattle.heads.specs.Pack.{says, meaning};
ghost use Rattle.drawing.specs.Drawing.{PutOut};
ghost use Rattle.packdrawing.specs.PackDrawing.{pack_of, pack_lined};

use drawing::DrawAnswer;
use ground::limits;
use ground::refusals::{Reason, Refusal};
use index::latest;
use join::shape;
use records::Head;
use source::Origin;
use subchars::{Direction, Layout, Mode};

// Draws a text from a pack that says a head: 17, then the control file's refusals, 15, 16, then 9 for the output.
fn draw_opened(
    out: &mut [u8],
    area: &mut [u8],
    text: &[u8],
    head: Head,
    pack: &[u8],
    layout: Layout,
    direction: Direction,
    file: &[u8],
) -> DrawAnswer
    requires by_index { (records : List (List ℕ)) × (meaning pack.now ≡ says head records) }
    requires min_scratch_in_bounds { min_scratch ≤ length area.old }
    ensures { PutOut (pack_of pack.now layout direction file.now text.now) (length out.old) result out.new }
{
    if shape::good_layout(layout) {
        let mut starts = [0usize; latest::SMALL_CODES];
        let mut widths = [0usize; latest::SMALL_CODES];
        letters::hold_letters(head, pack, &mut starts, &mut widths);
        let hardblank = head.hardblank;
        let mode = Mode {
            layout,
            direction,
            hardblank,
        };
        // A pack has no list of codes and none of places: lists that nothing reads are lent in their stead.
        let codes = [0i32; 1];
        return drawing::draw_mapped(
            out,
            area,
            text,
            mode,
            head.height,
            pack,
            pack,
            Origin::Pack,
            &codes,
            &starts,
            &widths,
            &starts,
            file,
        );
    }
    drawing::refuse(Refusal::of(Reason::BadShape), out)
}

// 9 for a scratch under 32,000 bytes, 20, then as above; the scratch holds anything afterwards.
fn draw_tested(
    out: &mut [u8],
    scratch: &mut [u8],
    text: &[u8],
    pack: &[u8],
    layout: Layout,
    direction: Direction,
    file: &[u8],
) -> DrawAnswer
    ensures { PutOut (pack_lined (length scratch.old) pack.now layout direction file.now text.now) (length out.old) result out.new }
{
    if scratch.len() < limits::MIN_SCRATCH {
        return drawing::refuse(Refusal::of(Reason::AreaTooSmall), out);
    }
    match heads::open(pack) {
        Some(opened) => {
            let head = opened.head;
            draw_opened(out, scratch, text, head, pack, layout, direction, file)
        }
        None => drawing::refuse(Refusal::of(Reason::DamagedPack), out),
    }
}

// Draws a text by a pack, a layout, a direction and a control file: 9 for the scratch, 20, 17 for the layout, the control file's, 15, 16, then 9 for the
// output. The scratch is all zeros afterwards.
pub fn draw_pack(
    pack: &[u8],
    layout: Layout,
    direction: Direction,
    control: &[u8],
    text: &[u8],
    scratch: &mut [u8],
    out: &mut [u8],
) -> DrawAnswer
    ensures put_out { PutOut (pack_lined (length scratch.old) pack.now layout direction control.now text.now) (length out.old) result out.new }
    ensures scratch_after { scratch.new ≡ zeros (length scratch.old) }
{
    let answer = draw_tested(out, scratch, text, pack, layout, direction, control);
    ground::zero_from(scratch, 0);
    answer
}
