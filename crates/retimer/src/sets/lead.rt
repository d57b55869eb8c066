// The configurations from which a transition or a wait leads into a set.
ghost use Rattle.std.specs.Prelude.{◌≡◌, ◌+◌, ◌≤◌, ◌<◌, length};
ghost use Rattle.enforcement.specs.Limits.{max_count};
ghost use Rattle.enforcement.specs.Automaton.{locations, transition_at};
ghost use Rattle.enforcement.specs.Loading.{Fits};
ghost use Rattle.enforcement.specs.Model.{top};
ghost use Rattle.retimer.specs.Leading.{all_rows, leads, Leading, RowAdded, TransitionAdded, WaitsAdded};

use crate::limits::Monitor;
use crate::sets::{bounds, row};
use crate::{clocks, lookup};

// The first readings with which resets lead into the target's rows, at a second reading.
fn leading(rows: &[u64], target: usize, resets: u8, y: usize) -> u64
    requires { (length rows.now ≡ all_rows) × ((target < max_count) × (y ≤ top)) }
    ensures { Leading rows.now target resets y result }
{
    let i = target * Monitor::WIDTH + clocks::row_after(resets / 2 % 2, y);
    let row = rows[i];
    if resets % 2 == 1 {
        return row::spread(row);
    }
    row
}

// Whether the transition at a place leads from saturated readings into the rows.
pub fn leads_saturated(s: &[u8], rows: &[u64], p: usize) -> bool
    requires { (length rows.now ≡ all_rows) × ((p + 7 ≤ length s.now) × ((Fits s.now (transition_at s.now p)) × (locations s.now ≤ max_count))) }
    ensures { result ≡ leads rows.now (transition_at s.now p) top top }
{
    if !lookup::enabled(s, p, Monitor::TOP, Monitor::TOP) {
        return false;
    }
    let row = leading(rows, usize::from(s[p + 1]), s[p + 2], Monitor::TOP as usize);
    (row >> Monitor::TOP) % 2 == 1
}

// Adds readings to a row; answers whether it is another than before.
fn add_row(rows: &mut [u64], i: usize, more: u64) -> bool
    requires { i < length rows.old }
    ensures { RowAdded rows.old rows.new i more result }
{
    let row = rows[i];
    let next = row | more;
    rows[i] = next;
    next != row
}

// Adds to a location's rows the configurations from which the transition at a place leads into the rows; answers whether the rows are others than before.
// Rows of second readings below `from` stay as they are. The highest comes first, so that row 0, to which a reset of the second clock leads, is still as it was.
pub fn add_transition(s: &[u8], rows: &mut [u64], l: usize, p: usize, from: usize) -> bool
    requires { (length rows.old ≡ all_rows) × ((l < max_count) × ((p + 7 ≤ length s.now) × ((Fits s.now (transition_at s.now p)) × (locations s.now ≤ max_count)))) }
    ensures { TransitionAdded rows.old rows.new l from (transition_at s.now p) result }
{
    let allowed = bounds::columns(s, p);
    let target = usize::from(s[p + 1]);
    let resets = s[p + 2];
    let least = from.max(usize::from(s[p + 5]));
    let mut changed = false;
    for y in (least..clocks::past(s[p + 6])).rev() {
        let more = allowed & leading(rows, target, resets, y);
        if add_row(rows, l * Monitor::WIDTH + y, more) {
            changed = true;
        }
    }
    changed
}

// Adds to a location's rows the configurations from which some wait leads into them. Rows of second readings below `from` stay as they are.
// Before the last row stands all up to its highest reading: a tick before that, with the row itself, is just that again.
pub fn close(rows: &mut [u64], l: usize, from: usize)
    requires { (length rows.old ≡ all_rows) × (l < max_count) }
    ensures { WaitsAdded rows.old rows.new l from }
{
    let base = l * Monitor::WIDTH;
    let mut row = row::up_to_highest(rows[base + Monitor::TOP as usize]);
    for y in (from..Monitor::WIDTH).rev() {
        row = rows[base + y] | row::before(row);
        rows[base + y] = row;
    }
}
