// The rule that applies.
use crate::{guarded, print};
use retimer::limits::Monitor;
use retimer::lookup;
use std::io;

// Where a command leads.
fn step(rt: &impl Print, s: &[u8], c: u8, l: u8, x: u8, y: u8) -> io::Result<()> {
    if !guarded::stands(s, l, x, y) {
        return Ok(());
    }
    let next = lookup::step(s, c, l, [x, y]);
    print::word(rt, b"step")?;
    print::byte(rt, c)?;
    print::configuration(rt, l, x, y)?;
    if !next.found {
        return print::word(rt, b": none\n");
    }
    let r = next.readings;
    print::word(rt, b":")?;
    print::configuration(rt, next.location, r[0], r[1])?;
    print::word(rt, b"\n")
}

pub fn one_clock(rt: &impl Print) -> io::Result<()> {
    let a = course::sheet_a();
    step(rt, &a, 0, 0, 0, Monitor::TOP)?;
    step(rt, &a, 1, 0, 7, Monitor::TOP)?;
    step(rt, &a, 0, 1, 4, Monitor::TOP)?;
    step(rt, &a, 1, 1, 4, Monitor::TOP)?;
    step(rt, &a, 1, 1, 5, Monitor::TOP)?;
    step(rt, &a, 1, 1, Monitor::TOP, Monitor::TOP)?;
    let b = course::sheet_b();
    step(rt, &b, 0, 0, 3, Monitor::TOP)?;
    step(rt, &b, 1, 0, 3, Monitor::TOP)?;
    step(rt, &b, 1, 1, 9, Monitor::TOP)?;
    step(rt, &b, 1, 1, 10, Monitor::TOP)?;
    step(rt, &b, 1, 1, 15, Monitor::TOP)?;
    step(rt, &b, 1, 1, 16, Monitor::TOP)?;
    step(rt, &b, 0, 2, 0, Monitor::TOP)?;
    step(rt, &b, 2, 0, 0, Monitor::TOP)
}

pub fn two_clocks(rt: &impl Print) -> io::Result<()> {
    let s = guarded::TWO_CLOCKS;
    step(rt, &s, 0, 0, 7, 7)?;
    step(rt, &s, 1, 1, 3, 10)?;
    step(rt, &s, 1, 1, 3, 11)?;
    step(rt, &s, 1, 1, 2, 10)?;
    step(rt, &s, 1, 1, 5, 0)?;
    step(rt, &s, 1, 1, 6, 0)
}
