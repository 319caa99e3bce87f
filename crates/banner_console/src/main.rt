// The program banner on the console font, with a control file of two stages and text bytes over 127.
#![tactic(auto)]

use std::io;

fn main(rt: HostRuntime) -> io::Result<()> {
    console::run(&rt, &mut rt.stdin())
}
