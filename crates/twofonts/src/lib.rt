// Two fonts, the second behind the first: a row request of both, and a line of text drawn by both.
#![tactic(auto)]

ghost use Rattle.std.specs.Prelude.{◌≡◌, ◌+◌, ◌≤◌, length};
ghost use Rattle.ground.specs.Area.{zeros};
ghost use Rattle.ground.specs.Limits.{min_scratch, max_characters};
ghost use Rattle.index.specs.Index.{CharacterRoom};
ghost use Rattle.index.specs.Latest.{small_codes};
ghost use Rattle.lines.specs.Lines.{after};
ghost use Rattle.fontlists.specs.TwoFonts.{bytes_in};
ghost use Rattle.drawing.specs.Drawing.{PutOut};
ghost use Rattle.twofonts.specs.declared.RequestedOfTwo.TheVariants.{Row};
ghost use Rattle.twofonts.specs.Fonts.{alike};
ghost use Rattle.twofonts.specs.RowOfTwo.{no_row, row_in, row_of_two};
ghost use Rattle.twofonts.specs.TwoDrawing.{two_of, two_lined};
ghost use Rattle.twofonts.specs.Held.{both_of, BothHeld};

use chars::Entry;
use drawing::DrawAnswer;
use fontlists::two;
use fontlists::two::{LookedUpInTwo, Which};
use ground::limits;
use ground::refusals::{Reason, Refusal};
use header::Header;
use index::latest;
use lines::Cursor;
use reader::FontRead;
use source::Origin;
use subchars::Code;

// What reading both fonts gave: the first one's header and how many characters of each the lists hold; or a refusal.
#[derive(Clone, Copy)]
pub enum BothRead {
    Read {
        header: Header,
        first: usize,
        second: usize,
    },
    Refused(Refusal),
}

// Where a row stands and in which of two fonts, or why it is refused.
#[derive(Clone, Copy)]
pub enum RequestedOfTwo {
    Row {
        font: Which,
        place: usize,
        width: usize,
    },
    Refused(Refusal),
}

// Whether two fonts have equal heights and hardblanks.
fn are_alike(a: Header, b: Header) -> bool
    ensures { result ≡ alike a b }
{
    a.height == b.height && a.hardblank == b.hardblank
}

// Both answers as one: the first font's refusal, the second's, then 24.
fn both_of(a: Result<FontRead, Refusal>, b: Result<FontRead, Refusal>) -> BothRead
    ensures { result ≡ both_of a b }
{
    match a {
        Err(r) => BothRead::Refused(r),
        Ok(first) => match b {
            Err(r) => BothRead::Refused(r),
            Ok(second) => {
                if are_alike(first.header, second.header) {
                    return BothRead::Read {
                        header: first.header,
                        first: first.count,
                        second: second.count,
                    };
                }
                BothRead::Refused(Refusal::of(Reason::FontsDiffer))
            }
        },
    }
}

// Reads two fonts, each into its half of the lists.
fn read_both(
    first: &[u8],
    second: &[u8],
    codes: &mut [i32],
    starts: &mut [usize],
    widths: &mut [usize],
    places: &mut [usize],
) -> BothRead
    requires character_room { CharacterRoom (max_characters + max_characters) codes.old starts.old widths.old }
    requires places_len { length places.old ≡ small_codes + small_codes }
    ensures { BothHeld first.now second.now result codes.new starts.new widths.new places.new }
{
    let half = limits::MAX_CHARACTERS;
    let small = latest::SMALL_CODES;
    let a = fontlists::read_font(
        first,
        &mut codes[..half],
        &mut starts[..half],
        &mut widths[..half],
        &mut places[..small],
    );
    let b = fontlists::read_font(
        second,
        &mut codes[half..],
        &mut starts[half..],
        &mut widths[half..],
        &mut places[small..],
    );
    both_of(a, b)
}

fn no_row() -> RequestedOfTwo
    ensures { result ≡ no_row }
{
    RequestedOfTwo::Refused(Refusal::of(Reason::BadShape))
}

// Where a row of an entry's character stands, in the font that has the entry.
fn row_at<'a>(
    which: Which,
    entry: Entry,
    row: usize,
    first: &'a [u8],
    second: &'a [u8],
) -> RequestedOfTwo
    ensures { result ≡ Row which (after row (bytes_in which first.now second.now) entry.start) entry.width }
{
    let bytes = two::bytes_in(which, first, second);
    let cursor = Cursor { at: entry.start };
    let skipped = cursor.skip(bytes, row);
    let next = skipped.next;
    RequestedOfTwo::Row {
        font: which,
        place: next.at,
        width: entry.width,
    }
}

// Where a row stands of what a look-up came to.
fn row_in<'a>(
    looked: LookedUpInTwo,
    row: usize,
    first: &'a [u8],
    second: &'a [u8],
) -> RequestedOfTwo
    ensures { result ≡ row_in first.now second.now row looked }
{
    match looked {
        LookedUpInTwo::Found { font, entry } => row_at(font, entry, row, first, second),
        LookedUpInTwo::StoodIn { font, entry } => row_at(font, entry, row, first, second),
        LookedUpInTwo::Nothing => no_row(),
    }
}

// Where a row of the character that two fonts have for a code stands: the fonts' refusals, 24, then 17.
pub fn request<'a>(first: &'a [u8], second: &'a [u8], code: Code, row: usize) -> RequestedOfTwo
    ensures { result ≡ row_of_two first.now second.now code row }
{
    let mut codes = [0i32; two::BOTH_CHARACTERS];
    let mut starts = [0usize; two::BOTH_CHARACTERS];
    let mut widths = [0usize; two::BOTH_CHARACTERS];
    let mut places = [0usize; two::BOTH_SMALL_CODES];
    match read_both(
        first,
        second,
        &mut codes,
        &mut starts,
        &mut widths,
        &mut places,
    ) {
        BothRead::Read {
            header,
            first: n,
            second: m,
        } => {
            if row < header.height {
                let looked = two::look_up(code, n, m, &codes, &starts, &widths, &places);
                return row_in(looked, row, first, second);
            }
            no_row()
        }
        BothRead::Refused(r) => RequestedOfTwo::Refused(r),
    }
}

// Reads both fonts and draws a text: their refusals, 24, the control file's refusals, 15, 16, then 9 for the output.
fn draw_once<'a>(
    out: &mut [u8],
    area: &mut [u8],
    text: &[u8],
    first: &'a [u8],
    second: &'a [u8],
    file: &[u8],
) -> DrawAnswer
    requires { min_scratch ≤ length area.old }
    ensures { PutOut (two_of first.now second.now file.now text.now) (length out.old) result out.new }
{
    let mut codes = [0i32; two::BOTH_CHARACTERS];
    let mut starts = [0usize; two::BOTH_CHARACTERS];
    let mut widths = [0usize; two::BOTH_CHARACTERS];
    let mut places = [0usize; two::BOTH_SMALL_CODES];
    match read_both(
        first,
        second,
        &mut codes,
        &mut starts,
        &mut widths,
        &mut places,
    ) {
        BothRead::Read {
            header,
            first: n,
            second: m,
        } => drawing::draw_mapped(
            out,
            area,
            text,
            drawing::mode_of(header),
            header.height,
            first,
            second,
            Origin::Two {
                first: n,
                second: m,
            },
            &codes,
            &starts,
            &widths,
            &places,
            file,
        ),
        BothRead::Refused(r) => drawing::refuse(r, out),
    }
}

// 9 for a scratch under 32,000 bytes, then as above; the scratch holds anything afterwards.
fn draw_tested<'a>(
    out: &mut [u8],
    scratch: &mut [u8],
    text: &[u8],
    first: &'a [u8],
    second: &'a [u8],
    file: &[u8],
) -> DrawAnswer
    ensures { PutOut (two_lined (length scratch.old) first.now second.now file.now text.now) (length out.old) result out.new }
{
    if scratch.len() < limits::MIN_SCRATCH {
        return drawing::refuse(Refusal::of(Reason::AreaTooSmall), out);
    }
    draw_once(out, scratch, text, first, second, file)
}

// Draws a text by two fonts and a control file: 9 for the scratch, the first font's, the second's, 24, the control file's, 15, 16, then 9 for the output. The
// scratch is all zeros afterwards.
pub fn draw_two<'a>(
    first: &'a [u8],
    second: &'a [u8],
    control: &[u8],
    text: &[u8],
    scratch: &mut [u8],
    out: &mut [u8],
) -> DrawAnswer
    ensures put_out { PutOut (two_lined (length scratch.old) first.now second.now control.now text.now) (length out.old) result out.new }
    ensures scratch_after { scratch.new ≡ zeros (length scratch.old) }
{
    let answer = draw_tested(out, scratch, text, first, second, control);
    ground::zero_from(scratch, 0);
    answer
}
