// The box's limits, under its name.
use crate::print;
use retimer::limits::Monitor;
use std::io;

// The most locations, commands and held commands; the largest bound; the most scheduled commands; the most rules; the last date; the most numbers.
pub fn all(rt: &impl Print) -> io::Result<()> {
    print::word(rt, b"limits")?;
    print::number(rt, Monitor::COUNT as u64)?;
    print::byte(rt, Monitor::BOUND)?;
    print::number(rt, Monitor::SCHEDULED as u64)?;
    print::number(rt, Monitor::TRANSITIONS as u64)?;
    print::date(rt, Monitor::LATEST)?;
    print::date(rt, Monitor::NUMBERED)?;
    print::word(rt, b"\n")
}
