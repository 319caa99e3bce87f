// The files of the current folder, each read with room for a byte more than it may have, so that a file that is too long is seen to be.
ghost use Rattle.std.specs.Counts.{IsPrefixLen};

use crate::input::print_input;
use ground::limits;
use index::latest;
use std::io::{ErrorKind, Read};
use std::rt::Files;
use std::{fs, io};

const MOST_FONT: usize = limits::MAX_FONT_LENGTH + 1;

const MOST_CONTROL: usize = limits::MAX_CONTROL_FILE + 1;

// Reads to the end of a file or of the buffer; a file that cannot be read is empty.
fn read_file(file: &mut impl Read, buffer: &mut [u8]) -> usize
    ensures { IsPrefixLen result buffer.new }
{
    let mut done: usize = 0;
    for _ in 0..u64::MAX {
        if done == buffer.len() {
            return done;
        }
        match file.read(&mut buffer[done..]) {
            Ok(0) => return done,
            Ok(n) => done += n,
            Err(e) if e.kind() == ErrorKind::Interrupted => {}
            Err(_) => return 0,
        }
    }
    done
}

// Loads a file by its name; a missing one is empty.
fn load(rt: &impl Files, name: &str, buffer: &mut [u8]) -> usize
    ensures { IsPrefixLen result buffer.new }
{
    match fs::open(rt, name) {
        Ok(mut file) => read_file(&mut file, buffer),
        Err(_) => 0,
    }
}

// Draws by a font and a control file, which are read once.
fn draw_by(rt: &impl Print, input: &mut impl Read, font: &[u8], control: &[u8]) -> io::Result<()> {
    let mut codes = [0i32; limits::MAX_CHARACTERS];
    let mut starts = [0usize; limits::MAX_CHARACTERS];
    let mut widths = [0usize; limits::MAX_CHARACTERS];
    let mut places = [0usize; latest::SMALL_CODES];
    let mut stages = [0usize; limits::MAX_COMMANDS];
    let mut firsts = [0i32; limits::MAX_COMMANDS];
    let mut lasts = [0i32; limits::MAX_COMMANDS];
    let mut news = [0i32; limits::MAX_COMMANDS];
    let files = bothfiles::read_files(
        font,
        control,
        &mut codes,
        &mut starts,
        &mut widths,
        &mut places,
        &mut stages,
        &mut firsts,
        &mut lasts,
        &mut news,
    );
    print_input(
        rt, input, font, files, &codes, &starts, &widths, &places, &stages, &firsts, &lasts, &news,
    )
}

// Draws by a font, and by the control file if there is one.
fn draw_with(rt: &(impl Files + Print), input: &mut impl Read, font: &[u8]) -> io::Result<()> {
    match fs::open(rt, "control.flc") {
        Ok(mut file) => {
            let mut control = [0u8; MOST_CONTROL];
            let n = read_file(&mut file, &mut control);
            drop(file);
            draw_by(rt, input, font, &control[..n])
        }
        Err(_) => draw_by(rt, input, font, b""),
    }
}

// Draws by a font of any length.
fn draw_long(rt: &(impl Files + Print), input: &mut impl Read) -> io::Result<()> {
    let mut font = [0u8; MOST_FONT];
    let n = load(rt, "font.flf", &mut font);
    draw_with(rt, input, &font[..n])
}

// Draws by a font that is not small; one that fills the buffer is loaded again.
fn draw_middle(rt: &(impl Files + Print), input: &mut impl Read) -> io::Result<()> {
    let mut font = [0u8; 32768];
    let n = load(rt, "font.flf", &mut font);
    if n == 32768 {
        return draw_long(rt, input);
    }
    draw_with(rt, input, &font[..n])
}

// Draws each line of the input by font.flf and, if present, control.flc. Most fonts fit a small buffer, whose zeros cost less at the
// start; one that fills it is loaded again.
pub fn run(rt: &(impl Files + Print), input: &mut impl Read) -> io::Result<()> {
    let mut font = [0u8; 8192];
    let n = load(rt, "font.flf", &mut font);
    if n == 8192 {
        return draw_middle(rt, input);
    }
    draw_with(rt, input, &font[..n])
}
