// Whether a set of configurations as rows has one that the counts have.
ghost use Rattle.std.specs.Prelude.{◌≡◌, true, ◌↔◌, ℕ, ◌+◌, ◌≤◌, ◌<◌};
ghost use Rattle.enforcement.specs.Limits.{max_count};
ghost use Rattle.enforcement.specs.Model.{top};
ghost use Rattle.retimer.specs.Meeting.{RowAsked, MeetsRow, RowsAsked, MeetsAt, Covered, MeetAsked, Meets};

use crate::limits::Monitor;
use crate::locations;
use crate::sets::{bounds, diagonals, row};

// Whether the counts have one of a row's readings, beside the second reading y.
fn meets_row(counts: &[u8], l: u8, y: u8, row: u64) -> bool
    requires { RowAsked counts.now l y row }
    ensures { (result ≡ true) ↔ MeetsRow counts.now l y row }
{
    // A walk over set bits counts no index: no plainer as a `for`.
    let mut left = row;
    while 0 < left {
        let x = u64::trailing_zeros(left) as u8;
        if diagonals::has(counts, l, x, y) {
            return true;
        }
        left = left & (left - 1);
    }
    false
}

// The same beside the saturated second reading. All of these lie on one diagonal, so the lowest is enough.
fn meets_saturated(counts: &[u8], l: u8, row: u64) -> bool
    requires { RowAsked counts.now l top row }
    ensures { (result ≡ true) ↔ MeetsRow counts.now l top row }
{
    if row == 0 {
        return false;
    }
    diagonals::has(counts, l, u64::trailing_zeros(row) as u8, Monitor::TOP)
}

// Whether the counts have a member of a location. Those a tick after another member need no look: if the counts have them, they have the other.
fn meets_at(counts: &[u8], l: u8, set: &[u64], h: usize) -> bool
    requires { (RowsAsked counts.now set.now (l + 1) h) × (l < max_count) }
    ensures { (result ≡ true) ↔ MeetsAt counts.now l set.now h }
{
    let a = usize::from(l) * h;
    let first = Monitor::WIDTH - h;
    let last = h - 1;
    let mut before = 0u64;
    for i in 0..last {
        let row = set[a + i];
        if meets_row(counts, l, (first + i) as u8, row::fresh(row, before)) {
            return true;
        }
        before = row;
    }
    meets_saturated(counts, l, set[a + last])
}

// Whether the counts have a member at one of the places.
fn meets_in(counts: &[u8], set: &[u64], places: u16, locations: u8, h: usize) -> bool
    requires { (RowsAsked counts.now set.now locations h) × ((locations ≤ max_count) × (Covered set.now places locations h)) }
    ensures { (result ≡ true) ↔ ((l : ℕ) × MeetsAt counts.now l set.now h) }
{
    for l in 0..locations {
        if locations::has(places, usize::from(l)) {
            if meets_at(counts, l, set, h) {
                return true;
            }
        }
    }
    false
}

// Whether the counts have a member of a set.
pub fn meets(s: &[u8], counts: &[u8], set: &[u64], places: u16) -> bool
    requires { MeetAsked s.now counts.now set.now places }
    ensures { (result ≡ true) ↔ Meets s.now counts.now set.now }
{
    meets_in(counts, set, places, s[0], bounds::height(s))
}
