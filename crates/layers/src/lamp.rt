// The lamp, with a list of commands pending.
use crate::{guarded, print};
use retimer::limits::Monitor;
use retimer::{lamp, liveness};
use std::io;

fn lit<'a>(rt: &impl Print, s: &'a [u8], cs: &'a [u8], l: u8, x: u8, y: u8) -> io::Result<()> {
    if !guarded::stands(s, l, x, y) {
        return Ok(());
    }
    let table = liveness::live_table(s);
    let counts = table.counts;
    print::word(rt, b"lamp")?;
    print::configuration(rt, l, x, y)?;
    print::truth(rt, lamp::is_lit(s, &counts, cs, l, [x, y]))
}

pub fn all(rt: &impl Print) -> io::Result<()> {
    let b = course::sheet_b();
    lit(rt, &b, b"", 0, Monitor::TOP, Monitor::TOP)?;
    lit(rt, &b, b"\x00", 0, Monitor::TOP, Monitor::TOP)?;
    lit(rt, &b, b"", 2, 10, Monitor::TOP)?;
    let c = course::sheet_c();
    lit(rt, &c, b"\x00", 0, 8, Monitor::TOP)?;
    lit(rt, &c, b"\x00", 0, 9, Monitor::TOP)?;
    lit(rt, &c, b"", 0, 8, Monitor::TOP)?;
    lit(rt, &c, b"", 0, 9, Monitor::TOP)?;
    lit(rt, &guarded::TWO_CLOCKS, b"\x00", 0, 7, 7)?;
    lit(rt, &guarded::TWO_CLOCKS, b"\x00", 0, 8, 8)
}
