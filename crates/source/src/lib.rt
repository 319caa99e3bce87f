// Where the characters of a drawing come from, a font, two fonts or a pack that were read into lists, and the character that they have for a code.
#![tactic(auto)]

pub mod packs;
mod two;

ghost use Rattle.std.specs.Prelude.{◌≡◌, true, List, ℕ, ◌+◌, ◌^◌, ◌<◌, ◌≤◌, length};
ghost use Rattle.ground.specs.Limits.{max_height};
ghost use Rattle.lines.specs.Lines.{line_end, next_start, after};
ghost use Rattle.subchars.specs.declared.Code.{Code};
ghost use Rattle.source.specs.Source.{Choice, Source, character_of};
ghost use Rattle.source.specs.Counting.{is_missing, one, how_many, counts_of, StandsIn};
ghost use Rattle.source.specs.Held.{FontGives, Gives};
ghost use Rattle.source.specs.Steps.{Standing, RowPlaces, Stands, ChosenAs, PickedAs, as_own};

use chars::Entry;
use fontlists::two::Which;
use lines::Cursor;
use subchars::Code;

// What the bytes of a source are: a font, of which the lists hold so many characters; two fonts, each in its half of the lists; or a pack.
#[derive(Clone, Copy)]
pub enum Origin {
    Font { count: usize },
    Two { first: usize, second: usize },
    Pack,
}

// What is drawn for a code: a character of the given width, which is the code's own or stands in for it; or nothing.
#[derive(Clone, Copy)]
pub enum Chosen {
    Character { width: usize, own: bool },
    Nothing,
}

// What is drawn for a code, and in the bytes of which of two fonts its rows stand: of the first where there is but one, or a pack.
#[derive(Clone, Copy)]
pub struct Picked {
    pub chosen: Chosen,
    pub font: Which,
}

// How many codes of a text were stood in, and how many drew nothing.
#[derive(Clone, Copy)]
pub struct Counts {
    pub stood_in: usize,
    pub nothing_drawn: usize,
}

// How many codes of a text are not in the source, with one code more.
pub fn count_missing(missing: usize, chosen: Chosen) -> usize
    requires { missing < 2 ^ 63 }
    ensures { (s starts : List ℕ) (h : ℕ) (x : Choice) → ChosenAs s starts h chosen x → result ≡ missing + one (is_missing x) }
{
    match chosen {
        Chosen::Character { width: _, own } => {
            if own {
                return missing;
            }
            missing + 1
        }
        Chosen::Nothing => missing + 1,
    }
}

// Whether a font has a character with code 0, which stands in for every code that it lacks.
fn font_stands_in(
    font: &[u8],
    height: usize,
    count: usize,
    codes: &[i32],
    starts: &[usize],
    widths: &[usize],
    places: &[usize],
) -> bool
    requires { (source : Source) × FontGives source font.now height count codes.now starts.now widths.now places.now }
    ensures { (source : Source) → FontGives source font.now height count codes.now starts.now widths.now places.now → StandsIn result source }
{
    reader::find_known(codes, starts, widths, count, places, Code(0)).is_some()
}

// Whether a source has a character with code 0.
fn stands_in(
    font: &[u8],
    second: &[u8],
    height: usize,
    origin: Origin,
    codes: &[i32],
    starts: &[usize],
    widths: &[usize],
    places: &[usize],
) -> bool
    requires { (source : Source) × Gives source font.now second.now height origin codes.now starts.now widths.now places.now }
    ensures { (source : Source) → Gives source font.now second.now height origin codes.now starts.now widths.now places.now → StandsIn result source }
{
    match origin {
        Origin::Font { count } => {
            font_stands_in(font, height, count, codes, starts, widths, places)
        }
        Origin::Two {
            first,
            second: other,
        } => { two::stands_in(first, other, codes, starts, widths, places) }
        Origin::Pack => packs::stands_in(font, height, starts, widths),
    }
}

// The counts of a text of which so many codes are not in the source: it stands in for all of them, or for none.
pub fn counts_of(
    missing: usize,
    font: &[u8],
    second: &[u8],
    height: usize,
    origin: Origin,
    codes: &[i32],
    starts: &[usize],
    widths: &[usize],
    places: &[usize],
) -> Counts
    requires { (source : Source) × Gives source font.now second.now height origin codes.now starts.now widths.now places.now }
    ensures { (source : Source) → Gives source font.now second.now height origin codes.now starts.now widths.now places.now → (text : List Code) → missing ≡ how_many is_missing source text → result ≡ counts_of source text }
{
    if stands_in(font, second, height, origin, codes, starts, widths, places) {
        return Counts {
            stood_in: missing,
            nothing_drawn: 0,
        };
    }
    Counts {
        stood_in: 0,
        nothing_drawn: missing,
    }
}

// Whether an LF stands directly behind a byte of a line: so most rows of a font end, by one endmark.
fn one_mark(font: &[u8], at: usize) -> bool
    requires { at < line_end font.now at }
    ensures { result ≡ true → next_start font.now at ≡ at + 2 }
{
    if font.len() <= at + 1 {
        return false;
    }
    font[at + 1] == b'\n'
}

// Where the line behind a byte of a line starts.
fn next_place(font: &[u8], at: usize) -> usize
    requires { at < line_end font.now at }
    ensures { result ≡ next_start font.now at }
{
    if one_mark(font, at) {
        return at + 2;
    }
    let cursor = Cursor { at };
    match cursor.next(font) {
        Some(line) => line.next.at,
        None => at,
    }
}

// Where the rows of a FIGcharacter start. A row's own bytes are passed over: only the endmarks behind them are looked at.
fn find_rows(font: &[u8], start: usize, width: usize, h: usize, rows: &mut [usize])
    requires h_nonzero { (0 < h) × (h ≤ length rows.old) }
    requires standing { Standing font.now start width h }
    requires by_index { (r : ℕ) → r < h → after r font.now start + width < line_end font.now (after r font.now start) }
    ensures { RowPlaces font.now start h rows.new }
{
    rows[0] = start;
    let mut last: usize = 0;
    let mut at = start;
    while last + 1 < h {
        at = next_place(font, at + width);
        last += 1;
        rows[last] = at;
    }
}

// The character of an entry, which is the code's own or stands in; where its rows start is written into a lent list.
fn show_entry(entry: Entry, own: bool, font: &[u8], height: usize, found: &mut [usize]) -> Chosen
    requires stands { Stands font.now entry height }
    requires max_height_in_bounds { max_height ≤ length found.old }
    ensures { ChosenAs font.now found.new height result (as_own own (character_of font.now entry)) }
{
    let start = entry.start;
    let width = entry.width;
    find_rows(font, start, width, height, found);
    Chosen::Character { width, own }
}

// The character that a font has for a code; where its rows start is written into a lent list.
fn choose_entry(
    code: Code,
    font: &[u8],
    height: usize,
    count: usize,
    codes: &[i32],
    starts: &[usize],
    widths: &[usize],
    places: &[usize],
    found: &mut [usize],
) -> Chosen
    requires font_gives { (source : Source) × FontGives source font.now height count codes.now starts.now widths.now places.now }
    requires max_height_in_bounds { max_height ≤ length found.old }
    ensures { (source : Source) → FontGives source font.now height count codes.now starts.now widths.now places.now → ChosenAs font.now found.new height result (source code) }
{
    match reader::find_known(codes, starts, widths, count, places, code) {
        Some(entry) => {
            let start = entry.start;
            let width = entry.width;
            let own = entry.code == code;
            // As in `show_entry`, but in place: the loop that draws by one font is then laid out best.
            find_rows(font, start, width, height, found);
            Chosen::Character { width, own }
        }
        None => Chosen::Nothing,
    }
}

// What was chosen in the only font, or in a pack.
fn in_first(chosen: Chosen) -> Picked
    ensures { (s t starts : List ℕ) (h : ℕ) (x : Choice) → ChosenAs s starts h chosen x → PickedAs s t starts h result x }
{
    Picked {
        chosen,
        font: Which::First,
    }
}

// The character that is drawn for a code, of the given height; where its rows start is written into a lent list.
pub fn choose<'a>(
    code: Code,
    font: &'a [u8],
    second: &'a [u8],
    height: usize,
    origin: Origin,
    codes: &[i32],
    starts: &[usize],
    widths: &[usize],
    places: &[usize],
    found: &mut [usize],
) -> Picked
    requires gives { (source : Source) × Gives source font.now second.now height origin codes.now starts.now widths.now places.now }
    requires max_height_in_bounds { max_height ≤ length found.old }
    ensures { (source : Source) → Gives source font.now second.now height origin codes.now starts.now widths.now places.now → PickedAs font.now second.now found.new height result (source code) }
{
    match origin {
        Origin::Font { count } => {
            let chosen = choose_entry(
                code, font, height, count, codes, starts, widths, places, found,
            );
            in_first(chosen)
        }
        Origin::Two {
            first,
            second: other,
        } => two::choose(
            code, font, second, height, first, other, codes, starts, widths, places, found,
        ),
        Origin::Pack => {
            let chosen = packs::choose_letter(code, font, height, starts, widths, found);
            in_first(chosen)
        }
    }
}
