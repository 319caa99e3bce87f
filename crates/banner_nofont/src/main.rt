// The program banner where there is no font.
#![tactic(auto)]

use std::io;

fn main(rt: HostRuntime) -> io::Result<()> {
    console::run(&rt, &mut rt.stdin())
}
