// The desk program on 200 calls, which fill two blocks and leave nothing. Over the first block's end the box keeps held commands, scheduled ones and its date.
// The calls stand in host/questions/block.txt.
#![tactic(auto)]

use std::io;

fn main(rt: HostRuntime) -> io::Result<()> {
    marking::desk::run(&rt)
}
