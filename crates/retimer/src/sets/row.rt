// A row: a set of readings of the first clock, a bit for each.
ghost use Rattle.std.specs.Prelude.{◌≤◌, ◌<◌, ◌^◌};
ghost use Rattle.enforcement.specs.Model.{width};
ghost use Rattle.retimer.specs.Row.{Interval, TickAfter, Upward, Fresh, TickBefore, UpTo, Spread, Gaps, Highest};

use crate::limits::Monitor;

// The row of the saturated reading alone, and the first number that has a bit above it.
const SATURATED: u64 = 1u64 << Monitor::TOP;

const SPAN: u64 = 2u64 << Monitor::TOP;

// The readings from a up to, but not including, b.
pub fn interval(a: usize, b: usize) -> u64
    requires { (a ≤ b) × (b ≤ width) }
    ensures { Interval a b result }
{
    (1u64 << b) - (1u64 << a)
}

// The readings a tick later.
pub fn tick(row: u64) -> u64
    requires { row < 2 ^ width }
    ensures { TickAfter row result }
{
    (row % SATURATED * 2) | (row & SATURATED)
}

// All readings from the lowest of a row on.
pub fn upward(row: u64) -> u64
    requires { row < 2 ^ width }
    ensures { Upward row result }
{
    if row == 0 {
        return 0;
    }
    interval(u64::trailing_zeros(row) as usize, Monitor::WIDTH)
}

// The readings of a row that are not one more than one of the row before.
pub fn fresh(row: u64, before: u64) -> u64
    requires { (row < 2 ^ width) × (before < 2 ^ width) }
    ensures { Fresh row before result }
{
    row & (row ^ (before * 2))
}

// The readings from which a tick leads into a row.
pub fn before(row: u64) -> u64
    ensures { TickBefore row result }
{
    (row >> 1) % SATURATED | row & SATURATED
}

// Every reading, or none, as the row has reading 0.
pub fn spread(row: u64) -> u64
    ensures { Spread row result }
{
    if row % 2 == 1 { u64::MAX } else { 0 }
}

// The readings that a row has not, each 0 or one more than one of the row before. Bits above the saturated reading mean nothing here and below.
pub fn gaps(row: u64, before: u64) -> u64
    ensures { Gaps row before result }
{
    let next = before % SATURATED * 2 + 1;
    next & (next ^ row)
}

// One more than the highest reading of a row, or 0 if it has none.
pub fn highest(row: u64) -> u8
    ensures { Highest row result }
{
    (64 - u64::leading_zeros(row % SPAN)) as u8
}

// The readings up to the highest of a row.
pub fn up_to_highest(row: u64) -> u64
    ensures { UpTo row result }
{
    interval(0, usize::from(highest(row)))
}
