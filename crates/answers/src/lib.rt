// How an answer becomes one number of 64 bits: a refusal's number above its place, or 0 above what the answer tells.
#![tactic(auto)]

ghost use Rattle.std.specs.Prelude.{◌≡◌, ◌<◌, ◌*◌};
ghost use Rattle.ground.specs.Refusals.{number_of};
ghost use Rattle.join.specs.JoinCall.{join_tells};
ghost use Rattle.stack.specs.StackCall.{stack_tells};
ghost use Rattle.twolines.specs.TwoLines.{stack_part};
ghost use Rattle.controlcalls.specs.ControlCall.{control_tells};
ghost use Rattle.wattleslate.specs.DrawCall.{draw_tells};
ghost use Rattle.answers.specs.Numbers.{value_bound, refused_at, three_values, placed_at, where_wrong, font_number, control_number, draw_number, wrap_number, join_number, stack_number, pack_number, find_number, edit_number, check_number};
ghost use Rattle.answers.specs.Fits.{RefusalFits, ValuesFit, PlaceFits, FontFits, ControlFits, DrawFits, WrapFits, JoinFits, StackFits, PackFits, FindFits, EditFits, CheckFits};

use checking::Verdict;
use drawing::DrawAnswer;
use flc::ControlRead;
use ground::refusals::Refusal;
use join::Joined;
use pack::{Accepted, Found};
use reader::FontRead;
use stack::Stacked;
use twolines::LinesAnswer;
use wrapping::WrapAnswer;

// A value is below this, as is a refusal's number: 16 bits.
const VALUE_BOUND: u64 = 65536;

// A place is below this: 48 bits, those of three values.
const PLACE_BOUND: u64 = VALUE_BOUND * VALUE_BOUND * VALUE_BOUND;

// A number above a place, as a refusal is told.
pub fn refused_at(number: usize, place: usize) -> u64
    requires { RefusalFits number place }
    ensures { result ≡ refused_at number place }
{
    number as u64 * PLACE_BOUND + place as u64
}

// The same of a refusal: the number of its reason above its place.
pub fn refusal_number(r: Refusal) -> u64
    requires { RefusalFits (number_of r.reason) r.place }
    ensures { result ≡ refused_at (number_of r.reason) r.place }
{
    refused_at(r.reason.number(), r.place)
}

// Three values in the place's bits.
fn three_values(a: usize, b: usize, c: usize) -> u64
    requires { ValuesFit a b c }
    ensures { result ≡ three_values a b c }
{
    (a as u64 * VALUE_BOUND + b as u64) * VALUE_BOUND + c as u64
}

// A place above a width.
fn placed_at(place: usize, width: usize) -> u64
    requires { PlaceFits place width }
    ensures { result ≡ placed_at place width }
{
    place as u64 * VALUE_BOUND + width as u64
}

// What is wrong, 1 for an overlap and 2 for a byte, above where it is.
fn where_wrong(what: u64, place: usize) -> u64
    requires { (what < value_bound) × (place < value_bound * value_bound) }
    ensures { result ≡ where_wrong what place }
{
    what * VALUE_BOUND * VALUE_BOUND + place as u64
}

// Of a font: its height, and how many characters it has.
pub fn font_number(answer: Result<FontRead, Refusal>) -> u64
    requires { FontFits answer }
    ensures { result ≡ font_number answer }
{
    answer.map_or_else(
        refusal_number,
        |read| three_values(0, read.header.height, read.count),
    )
}

// Of a control file: how many stages and commands it has.
pub fn control_number(answer: Result<ControlRead, Refusal>) -> u64
    requires { ControlFits answer }
    ensures { result ≡ control_number (control_tells answer) }
{
    answer.map_or_else(
        refusal_number,
        |read| three_values(0, read.stages, read.commands),
    )
}

// Of a drawing: how many text bytes drew nothing, how many were stood in, and the width.
pub fn draw_number(answer: DrawAnswer) -> u64
    requires { DrawFits answer }
    ensures { result ≡ draw_number (draw_tells answer) }
{
    match answer {
        DrawAnswer::Drawn { width, counts } => {
            three_values(counts.nothing_drawn, counts.stood_in, width)
        }
        DrawAnswer::Refused(r) => refusal_number(r),
    }
}

// Of a text in lines: how many text bytes drew nothing, how many were stood in, and how many lines.
pub fn wrap_number(answer: WrapAnswer) -> u64
    requires { WrapFits answer }
    ensures { result ≡ wrap_number answer }
{
    match answer {
        WrapAnswer::Wrapped { lines, counts } => {
            three_values(counts.nothing_drawn, counts.stood_in, lines)
        }
        WrapAnswer::Refused(r) => refusal_number(r),
    }
}

// Of a join: overlap and width.
pub fn join_number(answer: Result<Joined, Refusal>) -> u64
    requires { JoinFits answer }
    ensures { result ≡ join_number (join_tells answer) }
{
    answer.map_or_else(
        refusal_number,
        |joined| three_values(0, joined.overlap, joined.width),
    )
}

// Of a stack: overlap, height and width.
pub fn stack_number(answer: Result<Stacked, Refusal>) -> u64
    requires { StackFits answer }
    ensures { result ≡ stack_number (stack_tells answer) }
{
    answer.map_or_else(
        refusal_number,
        |stacked| three_values(stacked.overlap, stacked.height, stacked.width),
    )
}

// Of two lines, one above the other: the same of their stack.
pub fn lines_number(answer: LinesAnswer) -> u64
    requires { StackFits (stack_part answer) }
    ensures { result ≡ stack_number (stack_tells (stack_part answer)) }
{
    match answer {
        LinesAnswer::Drawn {
            overlap: o,
            height: h,
            width: w,
            counts: _,
        } => three_values(o, h, w),
        LinesAnswer::Refused(r) => refusal_number(r),
    }
}

// Of a pack: its height and how many records are live.
pub fn pack_number(answer: Result<Accepted, Refusal>) -> u64
    requires { PackFits answer }
    ensures { result ≡ pack_number answer }
{
    answer.map_or_else(
        refusal_number,
        |accepted| three_values(0, accepted.height, accepted.live),
    )
}

// Of a letter in a pack: where its rows start, and its width.
pub fn find_number(answer: Result<Found, Refusal>) -> u64
    requires { FindFits answer }
    ensures { result ≡ find_number answer }
{
    answer.map_or_else(refusal_number, |found| placed_at(found.place, found.width))
}

// Of a change of a pack: 0 where it is done.
pub fn edit_number(answer: Result<(), Refusal>) -> u64
    requires { EditFits answer }
    ensures { result ≡ edit_number answer }
{
    answer.map_or_else(refusal_number, |()| 0)
}

// Of the check of a drawing: 0 where it is accepted, else what is wrong and where.
pub fn check_number(answer: Result<Verdict, Refusal>) -> u64
    requires { CheckFits answer }
    ensures { result ≡ check_number answer }
{
    match answer {
        Ok(Verdict::Accepted) => 0,
        Ok(Verdict::WrongOverlap(k)) => where_wrong(1, k),
        Ok(Verdict::WrongByte(place)) => where_wrong(2, place),
        Err(r) => refusal_number(r),
    }
}
