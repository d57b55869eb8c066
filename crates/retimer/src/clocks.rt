// Readings of the two clocks, saturated just above the largest bound; the bound test, and where a bound ends.
ghost use Rattle.std.specs.Prelude.{◌≡◌, cond, ◌+◌, ◌≤◌, min, eqb};
ghost use Rattle.enforcement.specs.Automaton.{within};
ghost use Rattle.enforcement.specs.Model.{top};
ghost use Rattle.retimer.specs.Readings.{Readings, waited, reset_by, past};

use crate::comparison;
use crate::comparison::Comparison;
use crate::limits::Monitor;

// A reading n ticks later.
pub fn later(x: u8, n: u32) -> u8
    requires { x ≤ top }
    ensures { result ≡ min (x + n) top }
{
    x + n.min(u32::from(Monitor::TOP - x)) as u8
}

// Ticks pass.
pub fn wait_many(r: [u8; 2], n: u32) -> [u8; 2]
    requires { Readings r }
    ensures { (result ≡ waited n r) × (Readings result) }
{
    [later(r[0], n), later(r[1], n)]
}

// One tick passes.
pub fn wait(r: [u8; 2]) -> [u8; 2]
    requires { Readings r }
    ensures { (result ≡ waited 1 r) × (Readings result) }
{
    wait_many(r, 1)
}

// A reading after a transition: 0 where the clock's bit is set.
fn kept(bit: u8, x: u8) -> u8
    ensures { result ≡ cond (eqb bit 1) 0 x }
{
    if bit == 1 { 0 } else { x }
}

// The same of a second reading that counts rows. No plainer as one generic function: its zero would need a trait.
pub fn row_after(bit: u8, y: usize) -> usize
    ensures { result ≡ cond (eqb bit 1) 0 y }
{
    if bit == 1 { 0 } else { y }
}

// The clocks of a set are reset.
pub fn reset(r: [u8; 2], set: u8) -> [u8; 2]
    requires { Readings r }
    ensures { (result ≡ reset_by set r) × (Readings result) }
{
    [kept(set % 2, r[0]), kept(set / 2 % 2, r[1])]
}

// Whether a reading lies from low to high, by the case that the bounds fall in.
pub fn within(low: u8, high: u8, x: u8) -> bool
    ensures { result ≡ within low high x }
{
    let case = comparison::of(low, high);
    match case {
        Comparison::AtLeast => comparison::at_least(low, x),
        Comparison::Exactly => comparison::exactly(low, x),
        Comparison::AtMost => comparison::at_most(high, x),
        Comparison::Between => comparison::between(low, high, x),
    }
}

// One past the largest reading, up to saturation, that a high bound allows.
pub fn past(high: u8) -> usize
    ensures { result ≡ past high }
{
    if high == 255 {
        return Monitor::WIDTH;
    }
    usize::from(high) + 1
}
