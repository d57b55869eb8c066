// The desk program for a box that is loaded at a date, at 1,000,000,001 on a sheet whose rules overlap: its own refusal, I-6, comes before I-8.
#![tactic(auto)]

use std::io;

fn main(rt: HostRuntime) -> io::Result<()> {
    marking::desk::run_at(&rt)
}
