// How many transitions the product has: at a location, and in all.
ghost use Rattle.std.specs.Prelude.{◌≡◌, ◌+◌, ◌*◌, ◌≤◌, ◌<◌, length};
ghost use Rattle.enforcement.specs.Limits.{max_count, max_size};
ghost use Rattle.enforcement.specs.Automaton.{locations, transition_at};
ghost use Rattle.enforcement.specs.Loading.{WellFormed};
ghost use Rattle.product.specs.Product.{joints_of, location_at, product_transitions};
ghost use Rattle.product.specs.Rows.{RowIn, row_transitions};

use crate::row::Row;
use crate::{location, row};

// How many in a row of the second sheet are for the action of the transition at p of the first.
fn matching(first: &[u8], p: usize, second: &[u8], row: Row) -> usize
    requires { (p < length first.now) × (RowIn second.now row) }
    ensures { (result ≡ length (joints_of (locations second.now) (transition_at first.now p) (row_transitions second.now row))) × (result ≤ row.count) }
{
    let action = first[p];
    let mut k: usize = 0;
    for i in 0..row.count {
        if second[row.first + 7 * i] == action {
            k += 1;
        }
    }
    k
}

// How many the location l of the product has.
pub fn at(first: &[u8], second: &[u8], l: usize) -> usize
    requires { (WellFormed first.now) × ((WellFormed second.now) × (l < locations first.now * locations second.now)) }
    ensures { (result ≡ length (location_at first.now second.now l).transitions) × (result ≤ max_size * max_size) }
{
    let both = location::of(first, second, l);
    let a = row::of(first, both.first);
    let b = row::of(second, both.second);
    let mut k: usize = 0;
    for i in 0..a.count {
        k += matching(first, a.first + 7 * i, second, b);
    }
    k
}

// How many it has in all.
pub fn all(first: &[u8], second: &[u8]) -> usize
    requires { (WellFormed first.now) × ((WellFormed second.now) × (locations first.now * locations second.now ≤ max_count)) }
    ensures { result ≡ length (product_transitions first.now second.now) }
{
    let mut k: usize = 0;
    for l in 0..location::count(first, second) {
        k += at(first, second, l);
    }
    k
}
