// The parameters of a header: the numbers at the start of a text, their ranges, and the header that they make.
ghost use Rattle.std.specs.Prelude.{◌≡◌, nat_abs};
ghost use Rattle.lines.specs.Words.{first_word};
ghost use Rattle.lines.specs.Numbers.{header_number};
ghost use Rattle.header.specs.Header.{parameter_numbers, parameters, within, allowed, legal_parameters, given, layout_of, header, header_of};
ghost use Rattle.header.specs.Steps.{behind, legal_required};

use crate::{Header, Parameters};
use ground::limits;
use ground::refusals::{Reason, Refusal};
use lines::{numbers, words};
use subchars::{Layout, SubCharacter};

// The ranges of the parameters.
const MAX_HEIGHT: i32 = limits::MAX_HEIGHT as i32;

const MAX_LENGTH: i32 = limits::MAX_LENGTH as i32;

const MIN_OLD_LAYOUT: i32 = -1;

const MAX_OLD_LAYOUT: i32 = limits::MAX_RULES as i32;

const MAX_COMMENT_LINES: i32 = limits::MAX_COMMENT_LINES as i32;

const MAX_DIRECTION: i32 = limits::MAX_DIRECTION as i32;

const MAX_FULL_LAYOUT: i32 = limits::MAX_FULL_LAYOUT as i32;

const MAX_CODETAG_COUNT: i32 = i32::MAX;

// The number that the first word of a text is. The text then goes on behind the word; nothing is left where the word is no number, which ends the parameters.
fn next_number(text: &mut &[u8]) -> Option<i32>
    ensures number { result ≡ header_number (first_word text.old.now) }
    ensures rest { text.new.now ≡ behind result text.old.now }
{
    let t = *text;
    let word = words::first_word(t);
    let Some(number) = numbers::header_number(&t[word.start..word.end]) else {
        *text = &t[..0];
        return None;
    };
    *text = &t[word.end..];
    Some(number)
}

// The parameters by their names: the numbers at the start of a text, of which five are required.
fn parameters_of(t: &[u8]) -> Option<Parameters>
    ensures { result ≡ parameters (parameter_numbers t.now) }
{
    let mut rest = t;
    let height = next_number(&mut rest)?;
    let baseline = next_number(&mut rest)?;
    let max_length = next_number(&mut rest)?;
    let old_layout = next_number(&mut rest)?;
    let comment_lines = next_number(&mut rest)?;
    let print_direction = next_number(&mut rest);
    let full_layout = next_number(&mut rest);
    let codetag_count = next_number(&mut rest);
    Some(Parameters {
        height,
        baseline,
        max_length,
        old_layout,
        comment_lines,
        print_direction,
        full_layout,
        codetag_count,
    })
}

#[tactic(auto, unfolding(crate::specs::Header::within))]
fn is_within(z: i32, low: i32, high: i32) -> bool
    ensures { result ≡ within low high z }
{
    low <= z && z <= high
}

// Whether a parameter that may be missing is between 0 and its upper bound if it is there.
#[tactic(auto, unfolding(crate::specs::Header::allowed))]
fn is_allowed(p: Option<i32>, high: i32) -> bool
    ensures { result ≡ allowed high p }
{
    p.is_none_or(|z| is_within(z, 0, high))
}

// Whether the five parameters that are required are within their ranges.
fn is_legal_without_options(p: Parameters) -> bool
    ensures { result ≡ legal_required p }
{
    is_within(p.height, 1, MAX_HEIGHT)
        && is_within(p.baseline, 1, p.height)
        && is_within(p.max_length, 1, MAX_LENGTH)
        && is_within(p.old_layout, MIN_OLD_LAYOUT, MAX_OLD_LAYOUT)
        && is_within(p.comment_lines, 0, MAX_COMMENT_LINES)
}

#[tactic(auto, unfolding(crate::specs::Header::legal_parameters))]
fn is_legal(p: Parameters) -> bool
    ensures { result ≡ legal_parameters p }
{
    is_legal_without_options(p)
        && is_allowed(p.print_direction, MAX_DIRECTION)
        && is_allowed(p.full_layout, MAX_FULL_LAYOUT)
        && is_allowed(p.codetag_count, MAX_CODETAG_COUNT)
}

// The size of a number; a legal parameter but Old_Layout is its own size.
fn size_of(z: i32) -> usize
    ensures { result ≡ nat_abs z }
{
    z.unsigned_abs() as usize
}

fn given_of(p: Option<i32>) -> Option<usize>
    ensures { result ≡ given p }
{
    p.map(size_of)
}

// The layout that Old_Layout or, where it stands, Full_Layout gives.
fn layout_of(old: i32, full: Option<usize>) -> Layout
    ensures { result ≡ layout_of old full }
{
    full.map_or(Layout::from_old(old), Layout::from_full)
}

// The header of legal parameters.
#[tactic(auto, unfolding(crate::specs::Header::header))]
fn legal_header(hardblank: SubCharacter, p: Parameters) -> Header
    ensures { result ≡ header hardblank p }
{
    let full_layout = given_of(p.full_layout);
    Header {
        hardblank,
        height: size_of(p.height),
        baseline: size_of(p.baseline),
        max_length: size_of(p.max_length),
        old_layout: p.old_layout,
        comment_lines: size_of(p.comment_lines),
        print_direction: given_of(p.print_direction),
        full_layout,
        codetag_count: given_of(p.codetag_count),
        layout: layout_of(p.old_layout, full_layout),
    }
}

// The header that the numbers at the start of a text make.
#[tactic(auto, unfolding(crate::specs::Header::header_of))]
pub fn header_of(hardblank: SubCharacter, t: &[u8]) -> Result<Header, Refusal>
    ensures { result ≡ header_of hardblank (parameter_numbers t.now) }
{
    match parameters_of(t) {
        Some(p) if is_legal(p) => Ok(legal_header(hardblank, p)),
        _ => Err(Refusal::of(Reason::BadParameters)),
    }
}
