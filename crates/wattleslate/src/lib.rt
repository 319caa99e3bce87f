// The public calls. Each is total: it tests its own input, and its `ensures` hold for every input.
#![tactic(auto)]

// The types that the calls take and answer, the two calls over a lent index, those that ask one font and those about one control file.
ghost use Rattle.std.specs.Prelude.{◌≡◌, length};
ghost use Rattle.ground.specs.Area.{zeros};
ghost use Rattle.join.specs.JoinCall.{JoinGives};
ghost use Rattle.stack.specs.StackCall.{StackGives};
ghost use Rattle.twolines.specs.TwoLines.{draw_lines, LinesOut};
ghost use Rattle.wrapping.specs.Wrapping.{draw_wrapped, WrapOut};
ghost use Rattle.records.specs.Codes.{bits_of};
ghost use Rattle.heads.specs.Pack.{meaning};
ghost use Rattle.pack.specs.Calls.{check_told, located_in, find_told, rows_told, LiesIn, removal, insertion, compaction, Changes};
ghost use Rattle.drawing.specs.Drawing.{PutOut};
ghost use Rattle.packdrawing.specs.PackDrawing.{pack_lined};
ghost use Rattle.twofonts.specs.RowOfTwo.{row_of_two};
ghost use Rattle.twofonts.specs.TwoDrawing.{two_lined};
ghost use Rattle.drawingcheck.specs.CheckDrawing.{drawing_checked};
ghost use Rattle.wattleslate.specs.RowOfTwoCall.{row_of_two_bytes, LiesInOne};
ghost use Rattle.wattleslate.specs.DrawCall.{draw_tells, draw_told, draw_output};

pub use chars::Entry;
pub use checking::Verdict;
pub use controlcalls::{map_code, read_control};
pub use drawing::DrawAnswer;
pub use entries::read_font;
pub use finding::find_in;
pub use flc::ControlRead;
pub use fontcalls::{look_up, row, row_refusal};
pub use fontlists::two::Which;
pub use ground::refusals::{Reason, Refusal};
pub use header::Header;
pub use join::Joined;
pub use pack::{Accepted, Found};
pub use reader::{FontRead, LookedUp};
pub use request::RowPlace;
pub use source::Counts;
pub use stack::Stacked;
use subchars::Mode;
pub use subchars::{
    Code, Direction, Layout, Smushing, SubCharacter, VerticalLayout, VerticalSmushing,
};
pub use twofonts::RequestedOfTwo;
pub use twolines::LinesAnswer;
pub use wrapping::WrapAnswer;

// Joins a FIGcharacter to a line of equal height as the layout says, and writes the result to `out`, row after row with zeros behind.
// Writing left to right the character goes to the line's right, otherwise to its left. A refusal (17, 16, 9) leaves `out` all zeros.
pub fn join(
    line: &[u8],
    line_width: usize,
    character: &[u8],
    character_width: usize,
    height: usize,
    hardblank: SubCharacter,
    layout: Layout,
    direction: Direction,
    out: &mut [u8],
) -> Result<Joined, Refusal>
    ensures { JoinGives (record { layout = layout; direction = direction; hardblank = hardblank }) height line_width line.now character_width character.now (length out.old) result out.new }
{
    join::joining::join_to_line(
        Mode {
            layout,
            direction,
            hardblank,
        },
        height,
        line,
        line_width,
        character,
        character_width,
        out,
    )
}

// Stacks a lower block under an upper one, closed up as the layout says, and writes the result to `out`, row after row with zeros behind. Hardblanks
// are made blanks, and the narrower block is filled with blanks on the right. A refusal (17, 18, 9) leaves `out` all zeros.
pub fn stack(
    upper: &[u8],
    upper_width: usize,
    upper_height: usize,
    lower: &[u8],
    lower_width: usize,
    lower_height: usize,
    hardblank: SubCharacter,
    layout: VerticalLayout,
    out: &mut [u8],
) -> Result<Stacked, Refusal>
    ensures { StackGives layout hardblank.0 upper_height upper_width upper.now lower_height lower_width lower.now (length out.old) result out.new }
{
    stack::stacking::stack_blocks(
        upper,
        upper_width,
        upper_height,
        lower,
        lower_width,
        lower_height,
        hardblank,
        layout,
        out,
    )
}

// Draws a line of text by a font and a control file, and writes it to `out`: each row with hardblanks as blanks, then LF, with zeros behind. The
// answer gives the width, and how many text bytes were stood in and how many drew nothing. `scratch` has 32,000 bytes or more, and is all zeros afterwards. Refusals: 9 for the scratch, the font's (1 to 8), the
// control file's (10 to 14), 15, 16, then 9 for `out`; they leave `out` all zeros.
pub fn draw(
    font: &[u8],
    control: &[u8],
    text: &[u8],
    scratch: &mut [u8],
    out: &mut [u8],
) -> DrawAnswer
    ensures answer { draw_tells result ≡ draw_told (length scratch.old) font.now control.now text.now (length out.old) }
    ensures output { out.new ≡ draw_output (length scratch.old) font.now control.now text.now (length out.old) }
    ensures scratch { scratch.new ≡ zeros (length scratch.old) }
{
    fontdrawing::draw(font, control, text, scratch, out)
}

// Draws two texts by a font and a control file, the lower line under the upper one and closed up as the font's vertical layout says, and writes them to
// `out`: each row, then LF, with zeros behind. The answer counts what was stood in and what drew nothing over both texts. `scratch` has 64,000 bytes or more, and is all zeros afterwards. Refusals: 9 for the scratch, the font's
// (1 to 8), the control file's (10 to 14), 15 and 16 of either, then 9 for `out`; they leave `out` all zeros.
pub fn draw_stacked(
    font: &[u8],
    control: &[u8],
    upper: &[u8],
    lower: &[u8],
    scratch: &mut [u8],
    out: &mut [u8],
) -> LinesAnswer
    ensures lines { LinesOut (draw_lines (length scratch.old) font.now control.now upper.now lower.now) (length out.old) result out.new }
    ensures scratch { scratch.new ≡ zeros (length scratch.old) }
{
    stackdrawing::draw_stacked(font, control, upper, lower, scratch, out)
}

// Draws a text by a font and a control file in lines at most `limit` columns wide, 1 to 1,000, each with the most words that fit; a first word that does not fit
// is broken. `firsts` and `ends` then list each line's first byte and the place behind its last, and `out` holds the lines' drawings one after another, each
// row with an LF; zeros behind. The answer gives how many lines, and the counts of the whole text. Both lists have 1,024 entries or more, and `scratch` has 32,000
// bytes or more and is all zeros afterwards. Refusals: 9 for the lists and the scratch, the font's (1 to 8), the control file's (10 to 14), 15, 17 for the limit, 19 at the first
// character other than a blank that is wider than the limit, then 9 for `out`; they leave the lists and `out` all zeros.
pub fn draw_wrapped(
    font: &[u8],
    control: &[u8],
    text: &[u8],
    limit: usize,
    scratch: &mut [u8],
    firsts: &mut [usize],
    ends: &mut [usize],
    out: &mut [u8],
) -> WrapAnswer
    ensures lines { WrapOut (draw_wrapped (length firsts.old) (length ends.old) (length scratch.old) font.now control.now limit text.now) (length firsts.old) (length ends.old) (length out.old) result firsts.new ends.new out.new }
    ensures scratch { scratch.new ≡ zeros (length scratch.old) }
{
    wrapping::draw_wrapped(font, control, text, limit, scratch, firsts, ends, out)
}

// Tests a whole pack, and gives its height and how many records are live. Refusal 20.
pub fn pack_check(pack: &[u8]) -> Result<Accepted, Refusal>
    ensures answer { result ≡ check_told (meaning pack.now) }
{
    pack::check(pack)
}

// Where the rows of a code's letter start in a pack, and its width. Refusals: 20, 17 for code -1, 22.
pub fn pack_find(pack: &[u8], code: Code) -> Result<Found, Refusal>
    ensures answer { result ≡ find_told (meaning pack.now) (bits_of code.0) }
{
    pack::find(pack, code)
}

// The rows of the same letter, one after another, as a part of the pack. Where `pack_find` refuses they are empty.
pub fn pack_rows<'a>(pack: &'a [u8], code: Code) -> &'a [u8]
    ensures part { result.now ≡ rows_told pack.now (bits_of code.0) }
    ensures place { LiesIn pack.entry (located_in (meaning pack.now) (bits_of code.0)) result }
{
    pack::find_rows(pack, code)
}

// Puts a letter into a pack: into the first free record of its width, else behind the last record. Refusals: 20, 17 for code -1, a width over 199, rows that
// are not height times width bytes or hold a byte that a font's row may not, 21, 23; they leave the pack as it was lent.
pub fn pack_put(pack: &mut [u8], code: Code, width: usize, rows: &[u8]) -> Result<(), Refusal>
    ensures change { Changes (insertion (meaning pack.old) (length pack.old) (bits_of code.0) width rows.now) pack.old result pack.new }
{
    pack::put(pack, code, width, rows)
}

// Frees the record of a code's letter: one byte changes. Refusals: 20, 17 for code -1, 22; they leave the pack as it was lent.
pub fn pack_remove(pack: &mut [u8], code: Code) -> Result<(), Refusal>
    ensures change { Changes (removal (meaning pack.old) (bits_of code.0)) pack.old result pack.new }
{
    pack::remove(pack, code)
}

// Drops the free records of a pack; the live ones follow one another in order, with zeros behind. Refusal 20, which leaves the pack as it was lent.
pub fn pack_compact(pack: &mut [u8]) -> Result<(), Refusal>
    ensures change { Changes (compaction (meaning pack.old)) pack.old result pack.new }
{
    pack::compact(pack)
}

// Draws a line of text by a pack, a layout, a direction and a control file, as `draw` does by a font. Refusals: 9 for the scratch, 20, 17 for a layout of bad
// shape, the control file's (10 to 14), 15, 16, then 9 for `out`; they leave `out` all zeros.
pub fn draw_pack(
    pack: &[u8],
    layout: Layout,
    direction: Direction,
    control: &[u8],
    text: &[u8],
    scratch: &mut [u8],
    out: &mut [u8],
) -> DrawAnswer
    ensures line { PutOut (pack_lined (length scratch.old) pack.now layout direction control.now text.now) (length out.old) result out.new }
    ensures scratch { scratch.new ≡ zeros (length scratch.old) }
{
    packdrawing::draw_pack(pack, layout, direction, control, text, scratch, out)
}

// A row of the character that two fonts have for a code, as a part of whichever font has it: the code in the first, in the second, code 0 in the first, then in
// the second. A refused row is empty.
pub fn row_of_two<'a>(first: &'a [u8], second: &'a [u8], code: Code, row: usize) -> &'a [u8]
    ensures part { result.now ≡ row_of_two_bytes first.now second.now code row }
    ensures place { LiesInOne first.entry second.entry (row_of_two first.now second.now code row) result }
{
    match twofonts::request(first, second, code, row) {
        RequestedOfTwo::Row { font, place, width } => {
            let end = place + width;
            match font {
                Which::First => &first[place..end],
                Which::Second => &second[place..end],
            }
        }
        RequestedOfTwo::Refused(_) => &first[0..0],
    }
}

// The refusal of the same row request: the first font's, the second's, 24, then 17; or in which font the row stands, where it starts there and how wide it is.
pub fn row_of_two_refusal<'a>(
    first: &'a [u8],
    second: &'a [u8],
    code: Code,
    row: usize,
) -> RequestedOfTwo
    ensures answer { result ≡ row_of_two first.now second.now code row }
{
    twofonts::request(first, second, code, row)
}

// Draws a line of text by two fonts of equal height and hardblank and by a control file, as `draw` does by one font; layout and direction are the first font's.
// Refusals: 9 for the scratch, the first font's (1 to 8), the second's, 24, the control file's (10 to 14), 15, 16, then 9 for `out`; they leave `out` all zeros.
pub fn draw_two<'a>(
    first: &'a [u8],
    second: &'a [u8],
    control: &[u8],
    text: &[u8],
    scratch: &mut [u8],
    out: &mut [u8],
) -> DrawAnswer
    ensures line { PutOut (two_lined (length scratch.old) first.now second.now control.now text.now) (length out.old) result out.new }
    ensures scratch { scratch.new ≡ zeros (length scratch.old) }
{
    twofonts::draw_two(first, second, control, text, scratch, out)
}

// Checks a FIGure and a list of overlaps that another program gave for a text, one overlap for each drawn character after the first: accepted, or the first wrong overlap
// in the list, else the first wrong byte. `scratch` has 32,000 bytes or more, and is all zeros afterwards. Refusals: 9 for the scratch, the font's (1 to 8), the control
// file's (10 to 14), 15, 16, then 25 for a list of the wrong length.
pub fn check_drawing(
    font: &[u8],
    control: &[u8],
    text: &[u8],
    figure: &[u8],
    overlaps: &[usize],
    scratch: &mut [u8],
) -> Result<Verdict, Refusal>
    ensures answer { result ≡ drawing_checked (length scratch.old) font.now control.now text.now overlaps.now figure.now }
    ensures scratch { scratch.new ≡ zeros (length scratch.old) }
{
    drawingcheck::check_drawing(font, control, text, figure, overlaps, scratch)
}
