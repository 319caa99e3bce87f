// The overlap of two blocks side by side, above the overlaps of crate lanes and the pair decision of crate pairs.
#![tactic(auto)]

ghost use Rattle.std.specs.Prelude.{◌≡◌, true, ℕ, ◌+◌, ◌*◌, ◌<◌, ◌≤◌, length};
ghost use Rattle.ground.specs.Limits.{max_font_length};
ghost use Rattle.pairs.specs.Pair.{joins};
ghost use Rattle.lanes.specs.Blocks.{lane, cells_of, Inside};
ghost use Rattle.lanes.specs.Overlap.{lane_facing, facing, smushing};
ghost use Rattle.blocks.specs.Block.{seen};
ghost use Rattle.overlap.specs.Join.{overlap, pair_byte};

use lanes::View;
use subchars::{Layout, Mode, SubCharacter};

// Whether a facing pair joins. A blank is tested before the pair decision is called: most pairs have one.
#[tactic(auto, unfolding(pairs::specs::Pair::joins, pairs::specs::Pair::joint))]
fn pair_joins(mode: Mode, left: SubCharacter, right: SubCharacter) -> bool
    ensures { result ≡ joins mode left.0 right.0 }
{
    if left.0 == b' ' {
        return true;
    }
    if right.0 == b' ' {
        return true;
    }
    pairs::can_join(mode, left, right)
}

// What a facing pair becomes; blanks first, as above.
#[tactic(auto, unfolding(pairs::specs::Pair::joint))]
pub fn pair_byte(mode: Mode, left: SubCharacter, right: SubCharacter) -> SubCharacter
    ensures { result.0 ≡ pair_byte mode left.0 right.0 }
{
    if left.0 == b' ' {
        return right;
    }
    if right.0 == b' ' {
        return left;
    }
    pairs::joined_byte(mode, left, right)
}

// Whether each facing pair of one lane joins at overlap o.
fn lane_joins(
    mode: Mode,
    left: &[u8],
    a: usize,
    p: usize,
    n: usize,
    right: &[u8],
    b: usize,
    q: usize,
    o: usize,
) -> bool
    requires o_le_n { o ≤ n }
    requires by_index { (k : ℕ) → k < n → a + k * p < length left.now }
    requires by_index_2 { (k : ℕ) → k < o → b + k * q < length right.now }
    ensures { result ≡ lane_facing (joins mode) n (lane left.now a p) (lane right.now b q) o }
{
    let mut i: usize = 0;
    while i < o {
        let l = left[a + (n - o + i) * p];
        let r = right[b + i * q];
        if !pair_joins(mode, SubCharacter(l), SubCharacter(r)) {
            return false;
        }
        i += 1;
    }
    true
}

// Whether each facing pair of each row joins at overlap o, where those of the rows before `from` do.
fn rest_joins(
    mode: Mode,
    left: &[u8],
    a_starts: &[usize],
    a: View,
    right: &[u8],
    b_starts: &[usize],
    b: View,
    h: usize,
    o: usize,
    from: usize,
) -> bool
    requires o_le_len { (o ≤ a.len) × (o ≤ b.len) × (from ≤ h) }
    requires inside { Inside left.now a_starts.now a h }
    requires inside_2 { Inside right.now b_starts.now b h }
    requires o_value { facing (joins mode) from a.len (cells_of left.now a_starts.now a) (cells_of right.now b_starts.now b) o ≡ true }
    ensures { result ≡ facing (joins mode) h a.len (cells_of left.now a_starts.now a) (cells_of right.now b_starts.now b) o }
{
    let mut r: usize = from;
    while r < h {
        if !lane_joins(
            mode,
            left,
            a.base + a_starts[r],
            a.along,
            a.len,
            right,
            b.base + b_starts[r],
            b.along,
            o,
        ) {
            return false;
        }
        r += 1;
    }
    true
}

// The smushing overlap: the fitting one, or one more where every pair joins there. In the rows before the last that allowed less each pair has a blank there.
fn smushing_overlap(
    mode: Mode,
    left: &[u8],
    a_starts: &[usize],
    a: View,
    right: &[u8],
    b_starts: &[usize],
    b: View,
    h: usize,
) -> usize
    requires len_le_max_font_length { (a.len ≤ max_font_length) × (b.len ≤ max_font_length) }
    requires inside { Inside left.now a_starts.now a h }
    requires inside_2 { Inside right.now b_starts.now b h }
    ensures { result ≡ smushing (joins mode) h a.len b.len (cells_of left.now a_starts.now a) (cells_of right.now b_starts.now b) }
{
    let fit = lanes::fit_of(left, a_starts, a, right, b_starts, b, h);
    let f = fit.overlap;
    let most = a.len.min(b.len);
    if f < most {
        let t = rest_joins(
            mode,
            left,
            a_starts,
            a,
            right,
            b_starts,
            b,
            h,
            f + 1,
            fit.lane,
        );
        if t {
            return f + 1;
        }
    }
    f
}

// The overlap of two blocks of h rows.
#[tactic(auto, unfolding(crate::specs::Join::overlap))]
pub fn overlap_of(
    mode: Mode,
    left: &[u8],
    a_starts: &[usize],
    a: View,
    right: &[u8],
    b_starts: &[usize],
    b: View,
    h: usize,
) -> usize
    requires len_le_max_font_length { (a.len ≤ max_font_length) × (b.len ≤ max_font_length) }
    requires inside { Inside left.now a_starts.now a h }
    requires inside_2 { Inside right.now b_starts.now b h }
    ensures { result ≡ overlap mode h (seen left.now a_starts.now a) (seen right.now b_starts.now b) }
{
    let layout = mode.layout;
    match layout {
        Layout::FullWidth => 0,
        Layout::Fitting => lanes::fitting_overlap(left, a_starts, a, right, b_starts, b, h),
        Layout::Smushing(_) => smushing_overlap(mode, left, a_starts, a, right, b_starts, b, h),
    }
}
