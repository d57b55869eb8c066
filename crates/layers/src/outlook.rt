// What a list of commands comes to.
use crate::{guarded, print};
use retimer::limits::Monitor;
use retimer::outlook::Outlook;
use retimer::{liveness, reach};
use std::io;

fn print_outlook(rt: &impl Print, o: Outlook) -> io::Result<()> {
    print::word(rt, b": ")?;
    match o {
        Outlook::Correct => print::word(rt, b"correct\n"),
        Outlook::Extensible => print::word(rt, b"extensible\n"),
        Outlook::Dead { lit } => print::dead(rt, lit),
    }
}

// Of a list of one command or more.
fn comes_to<'a>(rt: &impl Print, s: &'a [u8], cs: &'a [u8], l: u8, x: u8, y: u8) -> io::Result<()> {
    if !guarded::stands(s, l, x, y) {
        return Ok(());
    }
    if cs.is_empty() {
        return Ok(());
    }
    let table = liveness::live_table(s);
    let counts = table.counts;
    print::word(rt, b"outlook")?;
    print::configuration(rt, l, x, y)?;
    print_outlook(rt, reach::outlook_of(s, &counts, cs, l, [x, y]))
}

// After one command.
pub fn single(rt: &impl Print) -> io::Result<()> {
    let b = course::sheet_b();
    comes_to(rt, &b, b"\x00", 0, Monitor::TOP, Monitor::TOP)?;
    comes_to(rt, &b, b"\x01", 0, 0, Monitor::TOP)?;
    comes_to(rt, &b, b"\x01", 1, 0, Monitor::TOP)?;
    comes_to(rt, &b, b"\x01", 1, 16, Monitor::TOP)
}

pub fn lists(rt: &impl Print) -> io::Result<()> {
    let b = course::sheet_b();
    comes_to(rt, &b, b"\x00\x01", 0, 5, Monitor::TOP)?;
    comes_to(rt, &b, b"\x00\x00", 0, 5, Monitor::TOP)?;
    comes_to(rt, &b, b"\x00\x00\x01", 0, 5, Monitor::TOP)?;
    let c = course::sheet_c();
    comes_to(rt, &c, b"\x00\x01", 0, 8, Monitor::TOP)?;
    comes_to(rt, &c, b"\x00\x01", 0, 9, Monitor::TOP)?;
    let e = course::sheet_e();
    comes_to(
        rt,
        &e,
        b"\x00\x00\x00\x00\x00\x00\x00\x00\x00\x00\x00\x00\x00\x00\x00\x00\x01",
        0,
        0,
        Monitor::TOP,
    )
}

pub fn two_clocks(rt: &impl Print) -> io::Result<()> {
    let s = guarded::TWO_CLOCKS;
    comes_to(rt, &s, b"\x00", 0, 7, 7)?;
    comes_to(rt, &s, b"\x00", 0, 8, 8)?;
    comes_to(rt, &s, b"\x00\x01", 0, 7, 7)?;
    comes_to(rt, &s, b"\x00\x01", 0, 8, 8)?;
    comes_to(rt, &s, b"\x00\x00", 0, 7, 7)?;
    comes_to(rt, &s, b"\x00\x00", 0, 8, 8)?;
    comes_to(rt, &s, b"\x01", 1, 0, 7)
}
