// What is printed about a control file: its counts and first commands, and what a code maps to.
use asking::code_of;
use asking::printing::{named, refused, signed, signed_named};
use flc::ControlRead;
use ground::refusals::Refusal;
use std::io;

// A code of a list, as far as the list has it.
fn code_at(rt: &impl Print, list: &[i32], i: usize) -> io::Result<()> {
    if let Some(z) = list.get(i) {
        signed_named(rt, b" ", *z)?;
    }
    Ok(())
}

// The i-th entry of the lists: stage, first and last code, first new code.
fn entry(
    rt: &impl Print,
    stages: &[usize],
    firsts: &[i32],
    lasts: &[i32],
    news: &[i32],
    i: usize,
) -> io::Result<()> {
    if let Some(stage) = stages.get(i) {
        named(rt, b"; ", *stage)?;
    }
    code_at(rt, firsts, i)?;
    code_at(rt, lasts, i)?;
    code_at(rt, news, i)
}

fn entries(
    rt: &impl Print,
    stages: &[usize],
    firsts: &[i32],
    lasts: &[i32],
    news: &[i32],
    n: usize,
) -> io::Result<()> {
    for i in 0..n {
        entry(rt, stages, firsts, lasts, news, i)?;
    }
    Ok(())
}

// The counts of a control file, or its refusal.
fn show_answer(rt: &impl Print, answer: Result<ControlRead, Refusal>) -> io::Result<()> {
    match answer {
        Ok(read) => {
            named(rt, b"commands ", read.commands)?;
            named(rt, b", stages ", read.stages)
        }
        Err(r) => refused(rt, r),
    }
}

// How many of its entries are shown: the first eight.
fn shown(answer: Result<ControlRead, Refusal>) -> usize {
    match answer {
        Ok(read) => read.commands.min(8),
        Err(_) => 0,
    }
}

// The counts of a control file, with its first entries.
pub(crate) fn show_control(rt: &impl Print, control: &[u8]) -> io::Result<()> {
    let mut stages = [0usize; 257];
    let mut firsts = [0i32; 257];
    let mut lasts = [0i32; 257];
    let mut news = [0i32; 257];
    let answer = wattleslate::read_control(
        control,
        &mut stages,
        &mut firsts,
        &mut lasts,
        &mut news,
    );
    show_answer(rt, answer)?;
    entries(rt, &stages, &firsts, &lasts, &news, shown(answer))
}

// What a control file is refused with where one of the lists has 255 entries.
pub(crate) fn show_short(rt: &impl Print, control: &[u8]) -> io::Result<()> {
    let mut stages = [0usize; 256];
    let mut firsts = [0i32; 256];
    let mut lasts = [0i32; 255];
    let mut news = [0i32; 256];
    show_answer(
        rt,
        wattleslate::read_control(control, &mut stages, &mut firsts, &mut lasts, &mut news),
    )
}

// What a code maps to.
pub(crate) fn show_map(rt: &impl Print, control: &[u8], word: &[u8]) -> io::Result<()> {
    match wattleslate::map_code(control, code_of(word)) {
        Ok(z) => signed(rt, z.0),
        Err(r) => refused(rt, r),
    }
}
