// By how many rows two blocks overlap. Columns on the right of the narrower block have only blanks on one side, and are not looked at.
ghost use Rattle.std.specs.Prelude.{ℕ, Bool, ◌≡◌, ◌≤◌, ◌<◌, length, min};
ghost use Rattle.ground.specs.Limits.{max_line_width};
ghost use Rattle.lanes.specs.Overlap.{facing, furthest, fitting, smushing};
ghost use Rattle.blocks.specs.Writing.{RowAfterRow};
ghost use Rattle.vertical.specs.VerticalPair.{merges, barred, AnswersAs};
ghost use Rattle.columns.specs.Stack.{supersmushing, stack_overlap};
ghost use Rattle.columns.specs.Placing.{placed_block, placed_columns};
ghost use Rattle.columns.specs.Facing.{row_faces};

use crate::Placed;
use ground::limits;
use lanes::View;
use subchars::{SubCharacter, VerticalLayout, VerticalSmushing};

// Writes where the first w columns of a block start. The list is lent: a list of that length would be copied on its way back.
fn list_columns(starts: &mut [usize], w: usize)
    requires { w ≤ length starts.old }
    ensures { RowAfterRow 1 w starts.new }
{
    for c in 0..w {
        starts[c] = c;
    }
}

// The fitting overlap: each column is looked at once.
fn fitting_rows(hardblank: SubCharacter, upper: Placed, lower: Placed) -> usize
    ensures { result ≡ fitting (min upper.entry.width lower.entry.width) upper.entry.height lower.entry.height (placed_columns hardblank.0 upper.entry) (placed_columns hardblank.0 lower.entry) }
{
    let w = upper.width.min(lower.width);
    let mut starts = [0usize; limits::MAX_LINE_WIDTH];
    list_columns(&mut starts, w);
    let a = View {
        base: upper.base,
        along: upper.stride,
        len: upper.height,
    };
    let b = View {
        base: lower.base,
        along: lower.stride,
        len: lower.height,
    };
    lanes::blanked_fitting(
        upper.bytes,
        &starts,
        a,
        lower.bytes,
        &starts,
        b,
        w,
        hardblank.0,
    )
}

// Whether each facing pair of row i of the lower block passes a test at overlap o.
fn row_passes<T: Fn(SubCharacter, SubCharacter) -> bool>(
    test: &T,
    hardblank: SubCharacter,
    upper: Placed,
    lower: Placed,
    o: usize,
    i: usize,
) -> bool
    requires callable { T.IsAlwaysCallable test.now }
    requires within { (o ≤ upper.height) × (o ≤ lower.height) × (i < o) }
    ensures { (p : ℕ → ℕ → Bool) → AnswersAs (T.post test.now) p → result ≡ row_faces p (min upper.entry.width lower.entry.width) upper.entry.height (placed_columns hardblank.0 upper.entry) (placed_columns hardblank.0 lower.entry) o i }
{
    let first = upper.height - o;
    let above = (first + i) * upper.stride + upper.base;
    let below = i * lower.stride + lower.base;
    for c in 0..upper.width.min(lower.width) {
        let x = subchars::blanked(SubCharacter(upper.bytes[above + c]), hardblank);
        let y = subchars::blanked(SubCharacter(lower.bytes[below + c]), hardblank);
        if !test(x, y) {
            return false;
        }
    }
    true
}

// Whether each facing pair passes a test at overlap o: row after row, as the bytes lie.
fn rows_pass<T: Fn(SubCharacter, SubCharacter) -> bool>(
    test: &T,
    hardblank: SubCharacter,
    upper: Placed,
    lower: Placed,
    o: usize,
) -> bool
    requires callable { T.IsAlwaysCallable test.now }
    requires within { (o ≤ upper.height) × (o ≤ lower.height) }
    ensures { (p : ℕ → ℕ → Bool) → AnswersAs (T.post test.now) p → result ≡ facing p (min upper.entry.width lower.entry.width) upper.entry.height (placed_columns hardblank.0 upper.entry) (placed_columns hardblank.0 lower.entry) o }
{
    for i in 0..o {
        if !row_passes(test, hardblank, upper, lower, o, i) {
            return false;
        }
    }
    true
}

// The smushing overlap by a test: the fitting one, or one more where every pair passes there.
fn smushing_rows<T: Fn(SubCharacter, SubCharacter) -> bool>(
    test: T,
    hardblank: SubCharacter,
    upper: Placed,
    lower: Placed,
) -> usize
    requires callable { T.IsAlwaysCallable test }
    ensures { (p : ℕ → ℕ → Bool) → AnswersAs (T.post test) p → result ≡ smushing p (min upper.entry.width lower.entry.width) upper.entry.height lower.entry.height (placed_columns hardblank.0 upper.entry) (placed_columns hardblank.0 lower.entry) }
{
    let fit = fitting_rows(hardblank, upper, lower);
    if fit < upper.height.min(lower.height) && rows_pass(&test, hardblank, upper, lower, fit + 1) {
        return fit + 1;
    }
    fit
}

// The largest overlap at which, together with all smaller ones, every pair passes a test.
fn furthest_rows<T: Fn(SubCharacter, SubCharacter) -> bool>(
    test: T,
    hardblank: SubCharacter,
    upper: Placed,
    lower: Placed,
) -> usize
    requires callable { T.IsAlwaysCallable test }
    ensures { (p : ℕ → ℕ → Bool) → AnswersAs (T.post test) p → result ≡ furthest p (min upper.entry.width lower.entry.width) upper.entry.height lower.entry.height (placed_columns hardblank.0 upper.entry) (placed_columns hardblank.0 lower.entry) }
{
    let most = upper.height.min(lower.height);
    for o in 0..most {
        if !rows_pass(&test, hardblank, upper, lower, o + 1) {
            return o;
        }
    }
    most
}

// The overlap of a set that has 4096.
fn supersmushing_rows(set: u16, hardblank: SubCharacter, upper: Placed, lower: Placed) -> usize
    ensures { result ≡ supersmushing set (min upper.entry.width lower.entry.width) upper.entry.height lower.entry.height (placed_columns hardblank.0 upper.entry) (placed_columns hardblank.0 lower.entry) }
{
    let fit = fitting_rows(hardblank, upper, lower);
    let far = furthest_rows(vertical::is_barred, hardblank, upper, lower);
    if fit < far {
        return far;
    }
    let others = VerticalLayout::Smushing(VerticalSmushing::Controlled(set % 4096));
    smushing_rows(
        |u, l| vertical::can_merge(others, u, l),
        hardblank,
        upper,
        lower,
    )
}

// The overlap of two blocks by a layout.
pub fn overlap_of(
    layout: VerticalLayout,
    hardblank: SubCharacter,
    upper: Placed,
    lower: Placed,
) -> usize
    ensures { result ≡ stack_overlap layout hardblank.0 upper.entry.height (placed_block upper.entry) lower.entry.height (placed_block lower.entry) }
{
    match layout {
        VerticalLayout::FullHeight => 0,
        VerticalLayout::Fitting => fitting_rows(hardblank, upper, lower),
        VerticalLayout::Smushing(VerticalSmushing::Universal) => {
            smushing_rows(
                |u, l| vertical::can_merge(layout, u, l),
                hardblank,
                upper,
                lower,
            )
        }
        VerticalLayout::Smushing(VerticalSmushing::Controlled(set)) => {
            if set / 4096 % 2 == 1 {
                supersmushing_rows(set, hardblank, upper, lower)
            } else {
                smushing_rows(
                    |u, l| vertical::can_merge(layout, u, l),
                    hardblank,
                    upper,
                    lower,
                )
            }
        }
    }
}
