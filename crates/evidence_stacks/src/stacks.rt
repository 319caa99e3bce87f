// What is printed about a stack: the answer, and all of the area.
ghost use Rattle.std.specs.Prelude.{◌≤◌};

use asking::lent::{MOST_ROOM, show_output, used_output};
use asking::printing::{named, refused};
use asking::{behind, first_block, hardblank_of, past_byte, row_of, second_block, word_of};
use ground::limits;
use ground::refusals::Refusal;
use std::io;
use subchars::{SubCharacter, VerticalLayout, VerticalSmushing};
use wattleslate::Stacked;

// The heights and widths of the two blocks.
#[derive(Clone, Copy)]
struct Shape {
    upper_height: usize,
    upper_width: usize,
    lower_height: usize,
    lower_width: usize,
}

// The vertical layout that a word names: a Full_Layout; or from 32,768 on, controlled smushing by the rules in the number's last fifteen bits.
fn layout_of(word: &[u8]) -> VerticalLayout {
    let n = row_of(word);
    if limits::MAX_FULL_LAYOUT < n {
        let set = (n % 32768) as u16;
        return VerticalLayout::Smushing(VerticalSmushing::Controlled(set));
    }
    VerticalLayout::from_full(n)
}

// The numbers of a stack.
pub(crate) fn show_numbers(
    rt: &impl Print,
    overlap: usize,
    height: usize,
    width: usize,
) -> io::Result<()> {
    named(rt, b"overlap ", overlap)?;
    named(rt, b", height ", height)?;
    named(rt, b", width ", width)
}

fn show_answer(rt: &impl Print, answer: Result<Stacked, Refusal>) -> io::Result<()> {
    match answer {
        Ok(stacked) => show_numbers(rt, stacked.overlap, stacked.height, stacked.width),
        Err(r) => refused(rt, r),
    }
}

// Stacks, and shows what came of it.
fn stack_in(
    rt: &impl Print,
    layout: VerticalLayout,
    hardblank: SubCharacter,
    s: Shape,
    upper: &[u8],
    lower: &[u8],
    out: &mut [u8],
) -> io::Result<()> {
    show_answer(
        rt,
        wattleslate::stack(
            upper,
            s.upper_width,
            s.upper_height,
            lower,
            s.lower_width,
            s.lower_height,
            hardblank,
            layout,
            out,
        ),
    )?;
    show_output(rt, out)
}

// Stacks in an area of some size.
fn stack(
    rt: &impl Print,
    layout: VerticalLayout,
    hardblank: SubCharacter,
    s: Shape,
    upper: &[u8],
    lower: &[u8],
    room: usize,
) -> io::Result<()>
    requires { room ≤ 2100 }
{
    let mut out = used_output();
    stack_in(rt, layout, hardblank, s, upper, lower, &mut out[..room])
}

// The words say how the blocks are stacked (layout, hardblank), their shape (height and width of the upper one, then of the lower one), the area's size and
// the length of the upper block; the blocks follow, with a byte between.
pub(crate) fn show_stack(rt: &impl Print, words: &[u8]) -> io::Result<()> {
    let second = behind(words);
    let third = behind(second);
    let fourth = behind(third);
    let fifth = behind(fourth);
    let sixth = behind(fifth);
    let seventh = behind(sixth);
    let eighth = behind(seventh);
    let s = Shape {
        upper_height: row_of(word_of(third)),
        upper_width: row_of(word_of(fourth)),
        lower_height: row_of(word_of(fifth)),
        lower_width: row_of(word_of(sixth)),
    };
    let room = row_of(word_of(seventh)).min(MOST_ROOM);
    let length = row_of(word_of(eighth));
    let t = past_byte(behind(eighth));
    stack(
        rt,
        layout_of(word_of(words)),
        hardblank_of(word_of(second)),
        s,
        first_block(t, length),
        second_block(t, length),
        room,
    )
}
