// The locations that an action can enter, whatever the readings.
ghost use Rattle.std.specs.Prelude.{◌<◌};
ghost use Rattle.enforcement.specs.Automaton.{locations};
ghost use Rattle.enforcement.specs.Loading.{WellFormed};
ghost use Rattle.retimer.specs.Locations.{InSheet};
ghost use Rattle.retimer.specs.Targets.{EntersFrom, EntersFromAny, Gathered};

use crate::{bytes, locations};

// The targets of the transitions of location l for an action.
pub fn of(s: &[u8], c: u8, l: usize) -> u16
    requires { (WellFormed s.now) × (l < locations s.now) }
    ensures { Gathered s.now (EntersFrom s.now c l) result }
{
    let pair = 6 + 4 * l;
    let first = bytes::word_at(s, pair);
    let end = first + bytes::word_at(s, pair + 2);
    let mut found = 0u16;
    for p in (first..end).step_by(7) {
        if s[p] == c {
            found = locations::with(found, usize::from(s[p + 1]));
        }
    }
    found
}

// Those of the transitions of all locations of a set.
pub fn of_all(s: &[u8], c: u8, places: u16) -> u16
    requires { (WellFormed s.now) × (InSheet s.now places) }
    ensures { Gathered s.now (EntersFromAny s.now c places) result }
{
    let mut found = 0u16;
    for l in 0..usize::from(s[0]) {
        if locations::has(places, l) {
            found = found | of(s, c, l);
        }
    }
    found
}
