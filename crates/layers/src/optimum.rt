// The least ticks of a list of commands, and their dates.
ghost use Rattle.std.specs.Prelude.{[], ◌∷◌, ◌+◌, replicate};
ghost use Rattle.enforcement.specs.Limits.{max_count};
ghost use Rattle.retimer.specs.Optimum.{Asked};

use crate::{guarded, print};
use retimer::limits::Monitor;
use retimer::optimum::Planned;
use retimer::outlook::Outlook;
use retimer::{liveness, optimum, reach};
use std::io;

fn print_dates(rt: &impl Print, dates: &[u32]) -> io::Result<()> {
    for t in dates {
        print::date(rt, *t)?;
    }
    Ok(())
}

// The ticks, the dates and the configuration reached.
fn print_plan(rt: &impl Print, p: Planned, dates: &[u32]) -> io::Result<()> {
    print::word(rt, b"ticks")?;
    print::number(rt, p.value as u64)?;
    print::word(rt, b" dates")?;
    print_dates(rt, dates)?;
    print::word(rt, b" at")?;
    print_reached(rt, p)?;
    print::word(rt, b"\n")
}

// The configuration after the commands.
fn print_reached(rt: &impl Print, p: Planned) -> io::Result<()> {
    let r = p.readings;
    if r.len() == 2 {
        return print::configuration(rt, p.location, r[0], r[1]);
    }
    Ok(())
}

// Commands that have a correction.
fn dated<'a>(
    rt: &impl Print,
    s: &'a [u8],
    cs: &'a [u8],
    l: u8,
    x: u8,
    y: u8,
    t: u32,
) -> io::Result<()>
    requires { Asked s.now cs.now l (x ∷ y ∷ []) t (replicate (max_count + 1) 0) }
{
    let mut out = [0u32; Monitor::BATCH];
    let p = optimum::plan(s, cs, l, [x, y], t, &mut out);
    print_plan(rt, p, &out[..cs.len()])
}

// One command or more, from a configuration and a date on.
fn plan<'a>(
    rt: &impl Print,
    s: &'a [u8],
    cs: &'a [u8],
    l: u8,
    x: u8,
    y: u8,
    t: u32,
) -> io::Result<()> {
    if !guarded::stands(s, l, x, y) {
        return Ok(());
    }
    if cs.is_empty() {
        return Ok(());
    }
    if Monitor::BATCH < cs.len() {
        return Ok(());
    }
    if Monitor::LATEST < t {
        return Ok(());
    }
    let table = liveness::live_table(s);
    let counts = table.counts;
    let o = reach::outlook_of(s, &counts, cs, l, [x, y]);
    match o {
        Outlook::Correct => dated(rt, s, cs, l, x, y, t),
        Outlook::Extensible => print::word(rt, b"extensible\n"),
        Outlook::Dead { lit } => print::dead(rt, lit),
    }
}

pub fn one_clock(rt: &impl Print) -> io::Result<()> {
    print::word(rt, b"plan\n")?;
    let a = course::sheet_a();
    plan(rt, &a, b"\x01", 1, 1, Monitor::TOP, 5)?;
    let b = course::sheet_b();
    plan(rt, &b, b"\x00\x01", 0, 5, Monitor::TOP, 5)?;
    plan(rt, &b, b"\x00", 0, 3, Monitor::TOP, 3)?;
    plan(rt, &b, b"\x01", 0, 0, Monitor::TOP, 0)?;
    let c = course::sheet_c();
    plan(rt, &c, b"\x00\x01", 0, 8, Monitor::TOP, 8)?;
    plan(rt, &c, b"\x00\x01", 0, 9, Monitor::TOP, 9)?;
    let d = course::sheet_d();
    plan(rt, &d, b"\x00\x01", 0, 3, Monitor::TOP, 3)?;
    plan(
        rt,
        &d,
        b"\x00\x01",
        0,
        Monitor::TOP,
        Monitor::TOP,
        1_000_000_000,
    )?;
    let e = course::sheet_e();
    plan(
        rt,
        &e,
        b"\x00\x00\x00\x00\x00\x00\x00\x00\x00\x00\x00\x00\x00\x00\x00\x00\x01",
        0,
        0,
        Monitor::TOP,
        0,
    )
}

pub fn two_clocks(rt: &impl Print) -> io::Result<()> {
    let s = guarded::TWO_CLOCKS;
    plan(rt, &s, b"\x00\x01", 0, 7, 7, 7)?;
    plan(rt, &s, b"\x00\x01", 0, 8, 8, 8)?;
    plan(rt, &s, b"\x01", 1, 0, 7, 7)?;
    plan(rt, &s, b"\x01", 1, 5, 10, 10)
}
