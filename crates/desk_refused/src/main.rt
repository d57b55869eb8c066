// The desk program on a whole sheet with two rules that overlap, two calls and two bytes: I-6 and no further line. They stand in host/questions/refused.txt.
#![tactic(auto)]

use std::io;

fn main(rt: HostRuntime) -> io::Result<()> {
    marking::desk::run(&rt)
}
