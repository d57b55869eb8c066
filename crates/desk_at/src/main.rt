// The desk program for a box that is loaded at a date, with which the input begins. Here it is 305,419,896, whose four bytes differ, with the calls of question P7 moved there, and two before it.
#![tactic(auto)]

use std::io;

fn main(rt: HostRuntime) -> io::Result<()> {
    marking::desk::run_at(&rt)
}
