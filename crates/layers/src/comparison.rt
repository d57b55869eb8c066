// The comparisons that bounds make: which one, and each by itself.
use crate::print;
use retimer::comparison;
use retimer::comparison::Comparison;
use retimer::limits::Monitor;
use std::io;

// The case that bounds fall in.
fn case(rt: &impl Print, low: u8, high: u8) -> io::Result<()> {
    print::word(rt, b"case")?;
    print::byte(rt, low)?;
    print::byte(rt, high)?;
    let c = comparison::of(low, high);
    match c {
        Comparison::AtLeast => print::word(rt, b": at least\n"),
        Comparison::Exactly => print::word(rt, b": exactly\n"),
        Comparison::AtMost => print::word(rt, b": at most\n"),
        Comparison::Between => print::word(rt, b": between\n"),
    }
}

// No upper bound, low equal to high, low zero, and the rest; where several fit, the first. Then bounds that no load accepts.
pub fn cases(rt: &impl Print) -> io::Result<()> {
    case(rt, 0, 255)?;
    case(rt, 5, 255)?;
    case(rt, Monitor::BOUND, 255)?;
    case(rt, 0, 0)?;
    case(rt, 5, 5)?;
    case(rt, Monitor::BOUND, Monitor::BOUND)?;
    case(rt, 0, 1)?;
    case(rt, 0, Monitor::BOUND)?;
    case(rt, 1, 2)?;
    case(rt, 5, 10)?;
    case(rt, 1, Monitor::BOUND)?;
    case(rt, 255, 255)?;
    case(rt, 254, 254)?;
    case(rt, 0, 254)?;
    case(rt, 254, 0)?;
    case(rt, 10, 5)?;
    case(rt, Monitor::TOP, 254)
}

// A comparison with one end, by its name.
fn with_end<C: Fn(u8, u8) -> bool>(
    rt: &impl Print,
    name: &[u8],
    end: u8,
    x: u8,
    compare: C,
) -> io::Result<()>
    requires { C.IsAlwaysCallable compare }
{
    print::word(rt, name)?;
    print::byte(rt, end)?;
    print::byte(rt, x)?;
    print::truth(rt, compare(end, x))
}

fn at_least(rt: &impl Print, low: u8, x: u8) -> io::Result<()> {
    with_end(rt, b"at least", low, x, comparison::at_least)
}

fn exactly(rt: &impl Print, low: u8, x: u8) -> io::Result<()> {
    with_end(rt, b"exactly", low, x, comparison::exactly)
}

fn at_most(rt: &impl Print, high: u8, x: u8) -> io::Result<()> {
    with_end(rt, b"at most", high, x, comparison::at_most)
}

fn between(rt: &impl Print, low: u8, high: u8, x: u8) -> io::Result<()> {
    print::word(rt, b"between")?;
    print::configuration(rt, low, high, x)?;
    print::truth(rt, comparison::between(low, high, x))
}

// One below the end, the end, and one above it.
pub fn ends(rt: &impl Print) -> io::Result<()> {
    at_least(rt, 5, 4)?;
    at_least(rt, 5, 5)?;
    at_least(rt, 5, 6)?;
    exactly(rt, 5, 4)?;
    exactly(rt, 5, 5)?;
    exactly(rt, 5, 6)?;
    at_most(rt, 5, 4)?;
    at_most(rt, 5, 5)?;
    at_most(rt, 5, 6)?;
    between(rt, 5, 7, 4)?;
    between(rt, 5, 7, 5)?;
    between(rt, 5, 7, 6)?;
    between(rt, 5, 7, 7)?;
    between(rt, 5, 7, 8)
}

// Of the largest bound, the readings 0, that bound, the one after it, and 255.
fn each(rt: &impl Print, x: u8) -> io::Result<()> {
    at_least(rt, Monitor::BOUND, x)?;
    exactly(rt, Monitor::BOUND, x)?;
    at_most(rt, Monitor::BOUND, x)?;
    between(rt, 1, Monitor::BOUND, x)
}

pub fn readings(rt: &impl Print) -> io::Result<()> {
    each(rt, 0)?;
    each(rt, Monitor::BOUND)?;
    each(rt, Monitor::TOP)?;
    each(rt, 255)
}
