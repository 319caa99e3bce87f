// What is printed about a drawing by a pack, and by a font beside it: the answer, all of the output, and whether the scratch is all zeros.
ghost use Rattle.std.specs.Prelude.{◌≤◌};

use asking::lent::{MOST_ROOM, MOST_SCRATCH, show_drawing, used_output, used_scratch};
use asking::{behind, load, past_byte, row_of, word_of};
use ground::limits;
use std::io;
use std::rt::Files;
use subchars::{Direction, Layout, Smushing};

// How a text is drawn by a pack.
#[derive(Clone, Copy)]
struct Manner {
    layout: Layout,
    direction: Direction,
}

// The layout that a word names: a Full_Layout; or from 32,768 on, controlled smushing by the rules in the number's last eight bits.
fn layout_of(word: &[u8]) -> Layout {
    let n = row_of(word);
    if limits::MAX_FULL_LAYOUT < n {
        let rules = (n % 256) as u8;
        return Layout::Smushing(Smushing::Controlled(rules));
    }
    Layout::from_full(n)
}

fn by_pack_in(
    rt: &impl Print,
    pack: &[u8],
    m: Manner,
    control: &[u8],
    t: &[u8],
    scratch: &mut [u8],
    out: &mut [u8],
) -> io::Result<()> {
    let layout = m.layout;
    let direction = m.direction;
    let answer = wattleslate::draw_pack(pack, layout, direction, control, t, scratch, out);
    show_drawing(rt, answer, scratch, out)
}

fn by_font_in(
    rt: &impl Print,
    font: &[u8],
    control: &[u8],
    t: &[u8],
    scratch: &mut [u8],
    out: &mut [u8],
) -> io::Result<()> {
    let answer = wattleslate::draw(font, control, t, scratch, out);
    show_drawing(rt, answer, scratch, out)
}

// Draws by a pack in areas of some size.
fn by_pack(
    rt: &impl Print,
    pack: &[u8],
    m: Manner,
    control: &[u8],
    t: &[u8],
    size: usize,
    room: usize,
) -> io::Result<()>
    requires { (size ≤ 32001) × (room ≤ 2100) }
{
    let mut scratch = used_scratch();
    let mut out = used_output();
    by_pack_in(
        rt,
        pack,
        m,
        control,
        t,
        &mut scratch[..size],
        &mut out[..room],
    )
}

// Draws by a font in areas of some size.
fn by_font(
    rt: &impl Print,
    font: &[u8],
    control: &[u8],
    t: &[u8],
    size: usize,
    room: usize,
) -> io::Result<()>
    requires { (size ≤ 32001) × (room ≤ 2100) }
{
    let mut scratch = used_scratch();
    let mut out = used_output();
    by_font_in(rt, font, control, t, &mut scratch[..size], &mut out[..room])
}

// The words are a layout, a direction, a control file, a scratch's size and an output's room; the rest of the line is the text.
pub fn show_by_pack(rt: &(impl Files + Print), pack: &[u8], words: &[u8]) -> io::Result<()> {
    let mut buffer = [0u8; 16385];
    let second = behind(words);
    let third = behind(second);
    let fourth = behind(third);
    let fifth = behind(fourth);
    let n = load(rt, word_of(third), &mut buffer);
    let m = Manner {
        layout: layout_of(word_of(words)),
        direction: Direction::from_print(row_of(word_of(second))),
    };
    by_pack(
        rt,
        pack,
        m,
        &buffer[..n],
        past_byte(behind(fifth)),
        row_of(word_of(fourth)).min(MOST_SCRATCH),
        row_of(word_of(fifth)).min(MOST_ROOM),
    )
}

// The words are a control file, a scratch's size and an output's room; the rest of the line is the text.
pub fn show_by_font(rt: &(impl Files + Print), font: &[u8], words: &[u8]) -> io::Result<()> {
    let mut buffer = [0u8; 16385];
    let n = load(rt, word_of(words), &mut buffer);
    let second = behind(words);
    let third = behind(second);
    let size = row_of(word_of(second)).min(MOST_SCRATCH);
    let room = row_of(word_of(third)).min(MOST_ROOM);
    by_font(rt, font, &buffer[..n], past_byte(behind(third)), size, room)
}
