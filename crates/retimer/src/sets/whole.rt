// Locations that a set has with every configuration.
ghost use Rattle.std.specs.Prelude.{◌≡◌, ◌≤◌, ◌<◌, length};
ghost use Rattle.enforcement.specs.Limits.{max_count};
ghost use Rattle.enforcement.specs.Model.{top};
ghost use Rattle.retimer.specs.Leading.{all_rows, member, LocationFilled, Filled};

use crate::limits::Monitor;
use crate::locations;

// Whether a location's configuration with both readings saturated is in the rows. Every wait ends there, so that where the rows have, with a configuration,
// the one a tick before it, they have every one of the location then.
pub fn has_saturated(rows: &[u64], l: usize) -> bool
    requires { (length rows.now ≡ all_rows) × (l < max_count) }
    ensures { result ≡ member rows.now l top top }
{
    let row = rows[l * Monitor::WIDTH + Monitor::TOP as usize];
    (row >> Monitor::TOP) % 2 == 1
}

// Gives a location every configuration. Rows of second readings below `from` stay as they are.
pub fn fill(rows: &mut [u64], l: usize, from: usize)
    requires { (length rows.old ≡ all_rows) × ((l < max_count) × (from ≤ top)) }
    ensures { LocationFilled rows.old rows.new l from }
{
    let base = l * Monitor::WIDTH;
    rows[base + from..base + Monitor::WIDTH].fill(u64::MAX);
}

// Gives some locations every configuration.
pub fn fill_each(rows: &mut [u64], places: u16)
    requires { length rows.old ≡ all_rows }
    ensures { Filled rows.old rows.new places }
{
    for l in 0..Monitor::COUNT {
        if locations::has(places, l) {
            fill(rows, l, 0);
        }
    }
}
