// The program banner on the example font with Full_Layout 128.
#![tactic(auto)]

use std::io;

fn main(rt: HostRuntime) -> io::Result<()> {
    console::run(&rt, &mut rt.stdin())
}
