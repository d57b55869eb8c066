// The desk program.
#![tactic(auto)]

use std::io;

fn main(rt: HostRuntime) -> io::Result<()> {
    marking::desk::run(&rt)
}
