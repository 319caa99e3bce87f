// Texts and numbers on standard output.
use ground::refusals::Refusal;
use std::io;

pub fn text(rt: &impl Print, t: &[u8]) -> io::Result<()> {
    rt.write_all(t)
}

pub fn number(rt: &impl Print, n: usize) -> io::Result<()> {
    rt.print(n)
}

// A text, and behind it a colon and a blank.
pub fn heading(rt: &impl Print, t: &[u8]) -> io::Result<()> {
    text(rt, t)?;
    text(rt, b": ")
}

// Bytes in backquotes, behind a comma.
pub fn quoted(rt: &impl Print, t: &[u8]) -> io::Result<()> {
    text(rt, b", `")?;
    text(rt, t)?;
    text(rt, b"`")
}

// A number behind a text.
pub fn named(rt: &impl Print, name: &[u8], n: usize) -> io::Result<()> {
    text(rt, name)?;
    number(rt, n)
}

// How many text bytes were stood in and how many drew nothing, each behind a comma.
pub fn counted(rt: &impl Print, stood_in: usize, nothing_drawn: usize) -> io::Result<()> {
    named(rt, b", stood in ", stood_in)?;
    named(rt, b", nothing drawn ", nothing_drawn)
}

pub fn signed(rt: &impl Print, z: i32) -> io::Result<()> {
    rt.print(z)
}

// The same of a code or of another number with a sign.
pub fn signed_named(rt: &impl Print, name: &[u8], z: i32) -> io::Result<()> {
    text(rt, name)?;
    signed(rt, z)
}

pub fn refused(rt: &impl Print, r: Refusal) -> io::Result<()> {
    named(rt, b"refused ", r.reason.number())?;
    named(rt, b" at ", r.place)
}
