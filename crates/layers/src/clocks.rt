// Waiting, resetting, and the bound test.
ghost use Rattle.retimer.specs.Readings.{Readings};

use crate::print;
use retimer::clocks;
use retimer::limits::Monitor;
use std::io;

// Two readings before and after a wait.
fn wait(rt: &impl Print, x: u8, y: u8, n: u32) -> io::Result<()> {
    if Monitor::TOP < x || Monitor::TOP < y {
        return Ok(());
    }
    let r = clocks::wait_many([x, y], n);
    print::word(rt, b"wait")?;
    print::byte(rt, x)?;
    print::byte(rt, y)?;
    print::date(rt, n)?;
    print::word(rt, b":")?;
    print::byte(rt, r[0])?;
    print::byte(rt, r[1])?;
    print::word(rt, b"\n")
}

// The readings after ticks one by one from zero.
fn after_ticks(n: u32) -> [u8; 2]
    ensures { Readings result }
{
    let mut r = [0u8; 2];
    for _ in 0..n {
        let next = clocks::wait(r);
        r = next;
    }
    r
}

fn ticks(rt: &impl Print, n: u32) -> io::Result<()> {
    let r = after_ticks(n);
    print::word(rt, b"ticks")?;
    print::date(rt, n)?;
    print::word(rt, b":")?;
    print::byte(rt, r[0])?;
    print::byte(rt, r[1])?;
    print::word(rt, b"\n")
}

// Readings up to the largest bound, 40, are exact; 41 stands for every one above it.
pub fn waits(rt: &impl Print) -> io::Result<()> {
    wait(rt, 0, 5, 0)?;
    wait(rt, 0, 5, 1)?;
    wait(rt, 0, 5, 30)?;
    wait(rt, 0, 5, 31)?;
    wait(rt, 0, 5, 35)?;
    wait(rt, 0, 5, 36)?;
    wait(rt, 0, 5, 40)?;
    wait(rt, 0, 5, 41)?;
    wait(rt, 0, 5, 1_000_000)?;
    wait(rt, 0, 5, 4_294_967_295)?;
    wait(rt, 30, 31, 0)?;
    wait(rt, 30, 31, 1)?;
    wait(rt, 31, 0, 1)?;
    wait(rt, 40, 41, 0)?;
    wait(rt, 40, 41, 1)?;
    wait(rt, 41, 0, 1)?;
    ticks(rt, 0)?;
    ticks(rt, 31)?;
    ticks(rt, 40)?;
    ticks(rt, 41)?;
    ticks(rt, 42)
}

fn reset(rt: &impl Print, set: u8) -> io::Result<()> {
    let r = clocks::reset([7, 9], set);
    print::word(rt, b"reset")?;
    print::byte(rt, set)?;
    print::word(rt, b":")?;
    print::byte(rt, r[0])?;
    print::byte(rt, r[1])?;
    print::word(rt, b"\n")
}

// Of the readings 7 and 9: bit 0 is clock 1, bit 1 clock 2.
pub fn resets(rt: &impl Print) -> io::Result<()> {
    reset(rt, 0)?;
    reset(rt, 1)?;
    reset(rt, 2)?;
    reset(rt, 3)
}

fn within(rt: &impl Print, low: u8, high: u8, x: u8) -> io::Result<()> {
    print::word(rt, b"within")?;
    print::configuration(rt, low, high, x)?;
    print::truth(rt, clocks::within(low, high, x))
}

// Readings around both ends of the bounds, 0, the largest bound, the one after it, and 255.
fn ends(rt: &impl Print, low: u8, high: u8) -> io::Result<()> {
    if 0 < low {
        within(rt, low, high, low - 1)?;
    }
    within(rt, low, high, low)?;
    within(rt, low, high, high)?;
    if high < 255 {
        within(rt, low, high, high + 1)?;
    }
    within(rt, low, high, 0)?;
    within(rt, low, high, Monitor::BOUND)?;
    within(rt, low, high, Monitor::TOP)?;
    within(rt, low, high, 255)
}

// Both ends are included; 255 is no upper bound. Three of each case; the last of each is of bounds that no load accepts.
pub fn bounds(rt: &impl Print) -> io::Result<()> {
    ends(rt, 0, 255)?;
    ends(rt, Monitor::BOUND, 255)?;
    ends(rt, 255, 255)?;
    ends(rt, 0, 0)?;
    ends(rt, Monitor::BOUND, Monitor::BOUND)?;
    ends(rt, 254, 254)?;
    ends(rt, 0, 10)?;
    ends(rt, 0, Monitor::BOUND)?;
    ends(rt, 0, 254)?;
    ends(rt, 5, 10)?;
    ends(rt, 1, Monitor::BOUND)?;
    ends(rt, 10, 5)
}
