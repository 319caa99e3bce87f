// A stack as it is asked for: the shape is tested, the overlap found, and the lent area filled. Refusals 17, 18, 9.
ghost use Rattle.std.specs.Prelude.{◌≡◌, ◌*◌, ◌≤◌, length};
ghost use Rattle.ground.specs.Limits.{max_line_width, max_stack_height};
ghost use Rattle.blocks.specs.Block.{exact_block};
ghost use Rattle.columns.specs.Stack.{stacked};
ghost use Rattle.columns.specs.Placing.{placed_block};
ghost use Rattle.join.specs.Shape.{good_block};
ghost use Rattle.stack.specs.StackCall.{lfs, good_stack, StackGives, PutStack, RefusesStack};

use crate::Stacked;
use crate::writing::Overlaid;
use columns::{Placed, overlaps};
use ground::limits;
use ground::refusals::{Reason, Refusal};
use join::shape;
use subchars::{SubCharacter, VerticalLayout};

// A refusal, with zeros all through the area.
pub fn refuse(reason: Reason, out: &mut [u8]) -> Result<Stacked, Refusal>
    ensures { RefusesStack reason (length out.old) result out.new }
{
    ground::zero_from(out, 0);
    Err(Refusal::of(reason))
}

// Stacks two blocks, with an LF behind each row where one is asked for: 18, then 9.
pub fn put_stack(
    out: &mut [u8],
    lf_ended: bool,
    layout: VerticalLayout,
    hardblank: SubCharacter,
    upper: Placed,
    lower: Placed,
) -> Result<Stacked, Refusal>
    ensures { PutStack (stacked layout hardblank.0 upper.entry.height (placed_block upper.entry) lower.entry.height (placed_block lower.entry)) (lfs lf_ended) (length out.old) result out.new }
{
    let overlap = overlaps::overlap_of(layout, hardblank, upper, lower);
    let both = Overlaid {
        layout,
        hardblank,
        upper,
        lower,
        overlap,
    };
    let height = both.height();
    if limits::MAX_STACK_HEIGHT < height {
        return refuse(Reason::StackTooHigh, out);
    }
    let width = both.width();
    let needed = height * (width + usize::from(lf_ended));
    if out.len() < needed {
        return refuse(Reason::AreaTooSmall, out);
    }
    both.write_rows(out, lf_ended);
    ground::zero_from(out, needed);
    Ok(Stacked {
        overlap,
        height,
        width,
    })
}

// A block whose rows lie one after another.
#[derive(Clone, Copy)]
struct Lent<'a> {
    bytes: &'a [u8],
    width: usize,
    height: usize,
}

impl<'a> Lent<'a> {
    // Where its rows lie.
    fn placed(self) -> Placed<'a>
        requires { (1 ≤ self.height) × (self.height ≤ max_stack_height) × (self.width ≤ max_line_width) × (length self.bytes.now ≡ self.height * self.width) }
        ensures { (result.height ≡ self.entry.height) × (placed_block result ≡ exact_block self.entry.width self.entry.bytes.now) }
    {
        Placed {
            bytes: self.bytes,
            base: 0,
            stride: self.width,
            width: self.width,
            height: self.height,
        }
    }
}

// Whether a block is not refused under 17, at most so many rows high.
fn good_block(tallest: usize, block: Lent) -> bool
    requires { tallest ≤ max_stack_height }
    ensures { result ≡ good_block tallest block.entry.height max_line_width block.entry.width (length block.entry.bytes.now) }
{
    shape::good_block(
        tallest,
        block.height,
        limits::MAX_LINE_WIDTH,
        block.width,
        block.bytes.len(),
    )
}

// Whether a stack is not refused under 17.
#[tactic(auto, unfolding(crate::specs::StackCall::good_stack))]
fn good_stack(layout: VerticalLayout, hardblank: SubCharacter, upper: Lent, lower: Lent) -> bool
    ensures { result ≡ good_stack layout hardblank.0 upper.entry.height upper.entry.width (length upper.entry.bytes.now) lower.entry.height lower.entry.width (length lower.entry.bytes.now) }
{
    good_block(limits::MAX_STACK_HEIGHT, upper)
        && good_block(limits::MAX_HEIGHT, lower)
        && vertical::good_vertical(layout)
        && subchars::legal_hardblank(hardblank)
}

// Stacks the lower block under the upper one; both lie row after row.
pub fn stack_blocks(
    upper: &[u8],
    upper_width: usize,
    upper_height: usize,
    lower: &[u8],
    lower_width: usize,
    lower_height: usize,
    hardblank: SubCharacter,
    layout: VerticalLayout,
    out: &mut [u8],
) -> Result<Stacked, Refusal>
    ensures { StackGives layout hardblank.0 upper_height upper_width upper.now lower_height lower_width lower.now (length out.old) result out.new }
{
    let a = Lent {
        bytes: upper,
        width: upper_width,
        height: upper_height,
    };
    let b = Lent {
        bytes: lower,
        width: lower_width,
        height: lower_height,
    };
    if !good_stack(layout, hardblank, a, b) {
        return refuse(Reason::BadShape, out);
    }
    put_stack(out, false, layout, hardblank, a.placed(), b.placed())
}
