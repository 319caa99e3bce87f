// The program banner on a font of 65,537 bytes, and a bad control file.
#![tactic(auto)]

use std::io;

fn main(rt: HostRuntime) -> io::Result<()> {
    console::run(&rt, &mut rt.stdin())
}
