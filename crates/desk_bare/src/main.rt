// The desk program on sheet A and nothing more: the sheet's line, and no other. The sheet stands in host/questions/a.txt.
#![tactic(auto)]

use std::io;

fn main(rt: HostRuntime) -> io::Result<()> {
    marking::desk::run(&rt)
}
