// From which configurations an accepting location can still be reached.
use crate::{guarded, print};
use retimer::limits::Monitor;
use retimer::liveness;
use std::io;

fn live(rt: &impl Print, s: &[u8], l: u8, x: u8, y: u8) -> io::Result<()> {
    if !guarded::stands(s, l, x, y) {
        return Ok(());
    }
    let table = liveness::live_table(s);
    let counts = table.counts;
    print::word(rt, b"live")?;
    print::configuration(rt, l, x, y)?;
    print::truth(rt, liveness::is_live(s, &counts, l, [x, y]))
}

pub fn one_clock(rt: &impl Print) -> io::Result<()> {
    let b = course::sheet_b();
    live(rt, &b, 0, Monitor::TOP, Monitor::TOP)?;
    live(rt, &b, 1, 0, Monitor::TOP)?;
    live(rt, &b, 1, 15, Monitor::TOP)?;
    live(rt, &b, 1, 16, Monitor::TOP)?;
    live(rt, &b, 2, Monitor::TOP, Monitor::TOP)?;
    let c = course::sheet_c();
    live(rt, &c, 0, 8, Monitor::TOP)?;
    live(rt, &c, 0, 9, Monitor::TOP)?;
    live(rt, &c, 1, 20, Monitor::TOP)?;
    live(rt, &c, 1, 21, Monitor::TOP)?;
    live(rt, &c, 2, Monitor::TOP, Monitor::TOP)?;
    let d = course::sheet_d();
    live(rt, &d, 1, Monitor::TOP, Monitor::TOP)?;
    let e = course::sheet_e();
    live(rt, &e, 0, Monitor::TOP, Monitor::TOP)
}

pub fn two_clocks(rt: &impl Print) -> io::Result<()> {
    let s = guarded::TWO_CLOCKS;
    live(rt, &s, 0, 7, 7)?;
    live(rt, &s, 0, 8, 8)?;
    live(rt, &s, 1, 0, 7)?;
    live(rt, &s, 1, 0, 8)?;
    live(rt, &s, 1, 2, 9)?;
    live(rt, &s, 1, 2, 10)?;
    live(rt, &s, 1, 5, 10)?;
    live(rt, &s, 1, 6, 0)
}
