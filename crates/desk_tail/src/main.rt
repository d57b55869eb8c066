// The desk program on 305 calls, which fill three blocks and begin a fourth, and three bytes more. Held commands cross the first two blocks' ends, and a lit
// lamp the third's. The calls stand in host/questions/tail.txt.
// Each desk_* is a program of its own, since a program has one stored input.
#![tactic(auto)]

use std::io;

fn main(rt: HostRuntime) -> io::Result<()> {
    marking::desk::run(&rt)
}
