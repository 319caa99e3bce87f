// Draws each line of standard input as big letters. Its own data: the example font of document 01, at the limits of a line.
#![tactic(auto)]

use std::io;

fn main(rt: HostRuntime) -> io::Result<()> {
    console::run(&rt, &mut rt.stdin())
}
