// The desk program on a sheet of 519 bytes and a call: a sheet longer than 518 bytes is I-1.
#![tactic(auto)]

use std::io;

fn main(rt: HostRuntime) -> io::Result<()> {
    marking::desk::run(&rt)
}
