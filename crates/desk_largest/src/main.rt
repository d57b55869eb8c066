// The desk program on a sheet of 518 bytes, the most that a sheet can have: 16 locations and 64 rules. It stands with its calls in host/questions/largest.txt.
#![tactic(auto)]

use std::io;

fn main(rt: HostRuntime) -> io::Result<()> {
    marking::desk::run(&rt)
}
