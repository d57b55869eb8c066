// The desk program on sheet A without its last byte: too few bytes for the sheet are I-1.
#![tactic(auto)]

use std::io;

fn main(rt: HostRuntime) -> io::Result<()> {
    marking::desk::run(&rt)
}
