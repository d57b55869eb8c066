// Sets of configurations as counts, one for each diagonal: a position is in the set where it and the count together stay below `Monitor::WIDTH`.
ghost use Rattle.std.specs.Prelude.{◌≡◌, ◌≤◌, ◌<◌, ◌^◌, length};
ghost use Rattle.enforcement.specs.Limits.{max_count};
ghost use Rattle.enforcement.specs.Model.{top, width};
ghost use Rattle.retimer.specs.Counts.{counts_size, diagonal, position, counted, Counted, Stored, LocationAsked, RowsCounted, LocationCounted, CountAsked};

use crate::limits::Monitor;
use crate::sets::{row, whole};

// The diagonal that two readings lie on.
fn diagonal(x: u8, y: u8) -> usize
    requires { (x ≤ top) × (y ≤ top) }
    ensures { result ≡ diagonal x y }
{
    if y == Monitor::TOP {
        return 0;
    }
    usize::from(x + (Monitor::TOP - y))
}

// Their position on it.
fn position(x: u8, y: u8) -> u8
    requires { (x ≤ top) × (y ≤ top) }
    ensures { result ≡ position x y }
{
    if y == Monitor::TOP {
        return x;
    }
    x.min(y)
}

// Whether the counts have a configuration.
pub fn has(counts: &[u8], l: u8, x: u8, y: u8) -> bool
    requires { ((length counts.now ≡ counts_size) × (l < max_count)) × ((x ≤ top) × (y ≤ top)) }
    ensures { result ≡ counted counts.now l x y }
{
    let i = usize::from(l) * Monitor::DIAGONALS + diagonal(x, y);
    usize::from(position(x, y)) + usize::from(counts[i]) < Monitor::WIDTH
}

// Ends the diagonals of some readings beside the second reading y before them.
fn count_row(counts: &mut [u8], l: usize, y: usize, gaps: u64)
    requires { ((length counts.old ≡ counts_size) × (l < max_count)) × ((y < top) × (gaps < 2 ^ width)) }
    ensures { Stored counts.old counts.new l y gaps }
{
    let base = l * Monitor::DIAGONALS;
    let second = y as u8;
    // A walk over set bits counts no index: no plainer as a `for`.
    let mut left = gaps;
    while 0 < left {
        let x = u64::trailing_zeros(left) as u8;
        let i = base + diagonal(x, second);
        counts[i] = Monitor::WIDTH as u8 - position(x, second);
        left = left & (left - 1);
    }
}

// Counts what is missing from a location's rows below the saturated one, the lowest first: a diagonal ends before the first that is missing, and counts 0 if none is.
fn count_rows(rows: &[u64], counts: &mut [u8], l: usize, from: usize)
    requires { LocationAsked rows.now counts.old l from }
    ensures { RowsCounted rows.now counts.old counts.new l from }
{
    let base = l * Monitor::WIDTH;
    let mut before = u64::MAX;
    for y in from..Monitor::TOP as usize {
        let row = rows[base + y];
        count_row(counts, l, y, row::gaps(row, before));
        before = row;
    }
}

// Counts what is missing from a location, unless it is whole.
fn count_location(rows: &[u64], counts: &mut [u8], l: usize, from: usize)
    requires { LocationAsked rows.now counts.old l from }
    ensures { LocationCounted rows.now counts.old counts.new l from }
{
    if whole::has_saturated(rows, l) {
        return;
    }
    count_rows(rows, counts, l, from);
    let highest = row::highest(rows[l * Monitor::WIDTH + Monitor::TOP as usize]);
    counts[l * Monitor::DIAGONALS] = Monitor::WIDTH as u8 - highest;
}

// Counts what is missing from the first locations. Second readings below `from` are left out.
pub fn count(rows: &[u64], counts: &mut [u8], locations: usize, from: usize)
    requires { CountAsked rows.now counts.old locations from }
    ensures { Counted rows.now counts.new locations from }
{
    for l in 0..locations {
        count_location(rows, counts, l, from);
    }
}
