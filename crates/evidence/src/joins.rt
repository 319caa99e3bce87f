// What is printed about a join: the answer, and all of the area.
ghost use Rattle.std.specs.Prelude.{◌≤◌};

use asking::lent::{MOST_ROOM, show_output, used_output};
use asking::printing::{named, refused};
use asking::{behind, first_block, hardblank_of, past_byte, row_of, second_block, word_of};
use ground::limits;
use ground::refusals::Refusal;
use std::io;
use subchars::{Direction, Layout, Smushing, SubCharacter};
use wattleslate::Joined;

// How two blocks are joined.
#[derive(Clone, Copy)]
struct Manner {
    layout: Layout,
    direction: Direction,
    hardblank: SubCharacter,
}

// The widths of the two blocks, and their height.
#[derive(Clone, Copy)]
struct Shape {
    height: usize,
    line: usize,
    character: usize,
}

// The layout that a word names: a Full_Layout; or from 32,768 on, controlled smushing by the rules in the number's last eight bits.
fn layout_of(word: &[u8]) -> Layout {
    let n = row_of(word);
    if limits::MAX_FULL_LAYOUT < n {
        let rules = (n % 256) as u8;
        return Layout::Smushing(Smushing::Controlled(rules));
    }
    Layout::from_full(n)
}

fn show_answer(rt: &impl Print, answer: Result<Joined, Refusal>) -> io::Result<()> {
    match answer {
        Ok(joined) => {
            named(rt, b"overlap ", joined.overlap)?;
            named(rt, b", width ", joined.width)
        }
        Err(r) => refused(rt, r),
    }
}

// Joins, and shows what came of it.
fn join_in(
    rt: &impl Print,
    m: Manner,
    s: Shape,
    line: &[u8],
    character: &[u8],
    out: &mut [u8],
) -> io::Result<()> {
    let layout = m.layout;
    let direction = m.direction;
    let hardblank = m.hardblank;
    show_answer(
        rt,
        wattleslate::join(
            line,
            s.line,
            character,
            s.character,
            s.height,
            hardblank,
            layout,
            direction,
            out,
        ),
    )?;
    show_output(rt, out)
}

// Joins in an area of some size.
fn join(
    rt: &impl Print,
    m: Manner,
    s: Shape,
    line: &[u8],
    character: &[u8],
    room: usize,
) -> io::Result<()>
    requires { room ≤ 2100 }
{
    let mut out = used_output();
    join_in(rt, m, s, line, character, &mut out[..room])
}

// Three words: a layout, a direction and a hardblank.
fn manner_of(words: &[u8]) -> Manner {
    let second = behind(words);
    Manner {
        layout: layout_of(word_of(words)),
        direction: Direction::from_print(row_of(word_of(second))),
        hardblank: hardblank_of(word_of(behind(second))),
    }
}

// Three words: the height, the line's width and the character's width.
fn shape_of(words: &[u8]) -> Shape {
    let second = behind(words);
    Shape {
        height: row_of(word_of(words)),
        line: row_of(word_of(second)),
        character: row_of(word_of(behind(second))),
    }
}

fn behind_three(words: &[u8]) -> &[u8] {
    behind(behind(behind(words)))
}

// The words say how the blocks are joined, their shape, the area's size and the length of the line's block; the blocks follow.
pub(crate) fn show_join(rt: &impl Print, words: &[u8]) -> io::Result<()> {
    let shape = behind_three(words);
    let area = behind_three(shape);
    let length = behind(area);
    let room = row_of(word_of(area)).min(MOST_ROOM);
    let n = row_of(word_of(length));
    let t = past_byte(behind(length));
    join(
        rt,
        manner_of(words),
        shape_of(shape),
        first_block(t, n),
        second_block(t, n),
        room,
    )
}
