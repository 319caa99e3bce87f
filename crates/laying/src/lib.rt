// The rows of a FIGcharacter laid into a line's area: on the line's, and beside them.
#![tactic(auto)]

ghost use Rattle.std.specs.Prelude.{◌≡◌, true, cond, ℕ, ◌+◌, ◌*◌, ◌-◌, ◌<◌, ◌≤◌, length, get_or, set};
ghost use Rattle.ground.specs.Limits.{max_line_width, max_height, min_scratch};
ghost use Rattle.blocks.specs.Writing.{from_on, Stored};
ghost use Rattle.laying.specs.Laying.{RowsIn, met, can_meet, MeetingRows, StoredRows, StoredTo, Parted, LaidRows};

use ground::limits;
use subchars::{Direction, Mode, SubCharacter};

// What a sub-character of the line becomes where one of a FIGcharacter lies on it.
#[tactic(auto, unfolding(crate::specs::Laying::met, crate::specs::Laying::can_meet))]
fn meet(mode: Mode, l: SubCharacter, x: SubCharacter) -> SubCharacter
    requires { can_meet mode l.0 x.0 ≡ true }
    ensures { result.0 ≡ met mode l.0 x.0 }
{
    let direction = mode.direction;
    match direction {
        Direction::LeftToRight => pairs::joining_byte(mode, l, x),
        Direction::RightToLeft => pairs::joining_byte(mode, x, l),
    }
}

// Lays a sub-character on the one at a place. A blank leaves what lies there.
fn meet_at(area: &mut [u8], at: usize, mode: Mode, x: SubCharacter)
    requires { (at < length area.old) × (can_meet mode (get_or area.old at 0) x.0 ≡ true) }
    ensures { area.new ≡ set area.old at (met mode (get_or area.old at 0) x.0) }
{
    if x.0 != b' ' {
        let z = meet(mode, SubCharacter(area[at]), x);
        area[at] = z.0;
    }
}

// Lays s[from..from + m] on area[at..].
fn meet_row(area: &mut [u8], at: usize, mode: Mode, s: &[u8], from: usize, m: usize)
    requires m_in_bounds { (at + m ≤ length area.old) × (from + m ≤ length s.now) }
    requires by_index { (j : ℕ) → j < m → can_meet mode (from_on area.old at j) (from_on s.now from j) ≡ true }
    ensures { Stored (λ (j : ℕ). met mode (from_on area.old at j) (from_on s.now from j)) at m area.old area.new }
{
    let mut k: usize = 0;
    while k < m {
        meet_at(area, at + k, mode, SubCharacter(s[from + k]));
        k += 1;
    }
}

// Lays the places p to p + o of each of h rows on the line's, from column `at` on.
fn meet_rows(
    area: &mut [u8],
    at: usize,
    mode: Mode,
    s: &[u8],
    starts: &[usize],
    p: usize,
    o: usize,
    h: usize,
)
    requires h_le_max_height { (h ≤ max_height) × (at + o ≤ max_line_width) × (min_scratch ≤ length area.old) }
    requires rows_in { RowsIn s.now starts.now (p + o) h }
    requires meeting_rows { MeetingRows mode h at p o s.now starts.now area.old }
    ensures { StoredRows (λ (r j : ℕ). met mode (from_on area.old (r * max_line_width + at) j) (from_on s.now (get_or starts.now r 0 + p) j)) h at o (at + o) area.old area.new }
{
    let mut r: usize = 0;
    while r < h {
        meet_row(
            area,
            r * limits::MAX_LINE_WIDTH + at,
            mode,
            s,
            starts[r] + p,
            o,
        );
        r += 1;
    }
}

// Copies the places q to q + n of each of h rows, to column `at` on.
fn copy_rows(area: &mut [u8], at: usize, s: &[u8], starts: &[usize], q: usize, n: usize, h: usize)
    requires h_le_max_height { (h ≤ max_height) × (at + n ≤ max_line_width) × (min_scratch ≤ length area.old) }
    requires rows_in { RowsIn s.now starts.now (q + n) h }
    ensures { StoredRows (λ (r j : ℕ). from_on s.now (get_or starts.now r 0 + q) j) h at n (at + n) area.old area.new }
{
    let mut r: usize = 0;
    while r < h {
        blocks::copy_part(area, r * limits::MAX_LINE_WIDTH + at, s, starts[r] + q, n);
        r += 1;
    }
}

// Writes four to out[at..].
fn put_four(out: &mut [u8], at: usize, a: u8, b: u8, c: u8, d: u8)
    requires { at + 4 ≤ length out.old }
    ensures { out.new ≡ set (set (set (set out.old at a) (at + 1) b) (at + 2) c) (at + 3) d }
{
    out[at] = a;
    out[at + 1] = b;
    out[at + 2] = c;
    out[at + 3] = d;
}

// Copies s[from..from + 8] to out[at..]. All are read before one is written, so that the compiler moves them as one.
fn copy_eight(out: &mut [u8], at: usize, s: &[u8], from: usize)
    requires { (at + 8 ≤ length out.old) × (from + 8 ≤ length s.now) }
    ensures { Stored (from_on s.now from) at 8 out.old out.new }
{
    let a = s[from];
    let b = s[from + 1];
    let c = s[from + 2];
    let d = s[from + 3];
    let e = s[from + 4];
    let f = s[from + 5];
    let g = s[from + 6];
    let h = s[from + 7];
    put_four(out, at, a, b, c, d);
    put_four(out, at + 4, e, f, g, h);
}

// Copies eight places from q on of each of h rows, to column `at` on, up to a row that the list has less than eight of; answers how many rows are copied.
fn copy_eights(area: &mut [u8], at: usize, s: &[u8], starts: &[usize], q: usize, h: usize) -> usize
    requires h_le_max_height { (h ≤ max_height) × (at + 8 ≤ max_line_width) × (min_scratch ≤ length area.old) }
    requires rows_in { RowsIn s.now starts.now q h }
    ensures { (result ≤ h) × StoredTo (λ (r j : ℕ). from_on s.now (get_or starts.now r 0 + q) j) result at 8 area.old area.new }
{
    let mut r: usize = 0;
    while r < h {
        let from = starts[r] + q;
        if s.len() < from + 8 {
            return r;
        }
        copy_eight(area, r * limits::MAX_LINE_WIDTH + at, s, from);
        r += 1;
    }
    r
}

// Copies the places q to q + n of each of h rows, to column `at` on, by eights: where n is no more and there is room for eight before column `stop`. Answers
// whether all rows are copied; what lies behind them, up to `stop`, may be written over in either case.
fn copied_by_eights(
    area: &mut [u8],
    at: usize,
    stop: usize,
    s: &[u8],
    starts: &[usize],
    q: usize,
    n: usize,
    h: usize,
) -> bool
    requires h_le_max_height { (h ≤ max_height) × (at ≤ stop) × (stop ≤ max_line_width) × (min_scratch ≤ length area.old) }
    requires rows_in { RowsIn s.now starts.now q h }
    ensures { StoredRows (λ (r j : ℕ). from_on s.now (get_or starts.now r 0 + q) j) h at (cond result n 0) stop area.old area.new }
{
    if 8 < n {
        return false;
    }
    if stop < at + 8 {
        return false;
    }
    copy_eights(area, at, s, starts, q, h) == h
}

// Copies the places q to q + n of each of h rows, to column `at` on. What lies behind them, up to column `stop`, may be written over.
fn copy_beside(
    area: &mut [u8],
    at: usize,
    stop: usize,
    s: &[u8],
    starts: &[usize],
    q: usize,
    n: usize,
    h: usize,
)
    requires h_le_max_height { (h ≤ max_height) × (at + n ≤ stop) × (stop ≤ max_line_width) × (min_scratch ≤ length area.old) }
    requires rows_in { RowsIn s.now starts.now (q + n) h }
    ensures { StoredRows (λ (r j : ℕ). from_on s.now (get_or starts.now r 0 + q) j) h at n stop area.old area.new }
{
    let copied = copied_by_eights(area, at, stop, s, starts, q, n, h);
    if copied {
        return;
    }
    copy_rows(area, at, s, starts, q, n, h);
}

// Lays the rows of a FIGcharacter, m wide: its places p to p + o lie on the line's, and those from q on beside it, before column `stop`.
pub fn lay(
    area: &mut [u8],
    at: usize,
    mode: Mode,
    s: &[u8],
    starts: &[usize],
    p: usize,
    q: usize,
    o: usize,
    m: usize,
    stop: usize,
    h: usize,
)
    requires h_le_max_height { (h ≤ max_height) × (p + o ≤ m) × (at + m ≤ max_line_width) × (min_scratch ≤ length area.old) }
    requires rows_in { RowsIn s.now starts.now m h }
    requires o_bound { (at + (q + (m - o)) ≤ stop) × (stop ≤ max_line_width) }
    requires parted { Parted at p q o m stop }
    requires meeting_rows { MeetingRows mode h (at + p) p o s.now starts.now area.old }
    ensures { LaidRows mode h at p o m stop s.now starts.now area.old area.new }
{
    meet_rows(area, at + p, mode, s, starts, p, o, h);
    copy_beside(area, at + q, stop, s, starts, q, m - o, h);
}
