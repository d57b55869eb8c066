// From which configurations an accepting location can still be reached.
ghost use Rattle.std.specs.Prelude.{◌≡◌, true, ◌&&◌, ◌↔◌, ◌+◌, ◌<◌, length};
ghost use Rattle.enforcement.specs.Limits.{max_count};
ghost use Rattle.enforcement.specs.Automaton.{automaton, byte, bit, accepting, locations, offset, size, transition_at};
ghost use Rattle.enforcement.specs.Model.{top, compile};
ghost use Rattle.enforcement.specs.Loading.{WellFormed};
ghost use Rattle.retimer.specs.Readings.{Standing, located};
ghost use Rattle.retimer.specs.Leading.{all_rows, leads};
ghost use Rattle.retimer.specs.Live.{LiveTable, LiveSet, least_of, least, Sound, Place, FromSaturated, Ticked, Turn, Turns, Improved, Unsettled, Swept};
ghost use Rattle.retimer.specs.Outlook.{SomeLive, SetAsked};

use crate::limits::Monitor;
use crate::sets::{diagonals, lead, meet, whole};
use crate::{bytes, locations, sets};

// The live configurations as a set.
#[derive(Clone, Copy)]
struct Live {
    set: [u64; sets::SIZE],
}

// The table of live configurations, as counts.
#[derive(Clone, Copy)]
pub struct Liveness {
    pub counts: [u8; Monitor::COUNTS],
}

// Whether a location is accepting.
pub fn accepts(s: &[u8], l: usize) -> bool
    requires { (WellFormed s.now) × (l < max_count) }
    ensures { result ≡ accepting s.now l }
{
    locations::has(bytes::word_at(s, 4) as u16, l)
}

// Looks at the transition at a place if its target is one of those that have gained; answers whether the location has gained a configuration.
fn turn(s: &[u8], set: &mut [u64], l: usize, p: usize, gained: u16, from: usize) -> bool
    requires { (WellFormed s.now) × ((Sound s.now set.old) × ((l < locations s.now) × ((Place s.now l p) × (from ≡ least s.now)))) }
    ensures { Turn s.now set.old set.new l gained p result }
{
    if locations::has(gained, usize::from(s[p + 1])) {
        return lead::add_transition(s, set, l, p, from);
    }
    false
}

// Looks at the transitions of a location whose targets have gained.
fn turns(s: &[u8], set: &mut [u64], l: usize, gained: u16, from: usize) -> bool
    requires { (WellFormed s.now) × ((Sound s.now set.old) × ((l < locations s.now) × (from ≡ least s.now))) }
    ensures { Turns s.now set.old set.new l gained (offset s.now l + size s.now l) result }
{
    let first = bytes::word_at(s, 6 + 4 * l);
    let end = first + bytes::word_at(s, 8 + 4 * l);
    let mut changed = false;
    for p in (first..end).step_by(7) {
        if turn(s, set, l, p, gained, from) {
            changed = true;
        }
    }
    changed
}

// Whether the transition at a place leads from saturated readings into the set, if its target is one of those that have gained.
fn from_saturated(s: &[u8], set: &[u64], l: usize, p: usize, gained: u16) -> bool
    requires { (WellFormed s.now) × ((length set.now ≡ all_rows) × ((l < locations s.now) × (Place s.now l p))) }
    ensures { result ≡ bit gained (byte s.now (p + 1)) && leads set.now (transition_at s.now p) top top }
{
    if locations::has(gained, usize::from(s[p + 1])) {
        return lead::leads_saturated(s, set, p);
    }
    false
}

// Whether one of a location's transitions does. Every wait ends with saturated readings, so every configuration of the location is live then.
fn some_from_saturated(s: &[u8], set: &[u64], l: usize, gained: u16) -> bool
    requires { (WellFormed s.now) × ((length set.now ≡ all_rows) × (l < locations s.now)) }
    ensures { FromSaturated s.now set.now l gained (offset s.now l + size s.now l) result }
{
    let first = bytes::word_at(s, 6 + 4 * l);
    let end = first + bytes::word_at(s, 8 + 4 * l);
    for p in (first..end).step_by(7) {
        if from_saturated(s, set, l, p, gained) {
            return true;
        }
    }
    false
}

// Looks at the transitions of a location whose targets have gained, and at waits, unless it has every configuration; answers whether it has gained one.
fn improve(s: &[u8], set: &mut [u64], l: usize, gained: u16, from: usize) -> bool
    requires { (WellFormed s.now) × ((Sound s.now set.old) × ((l < locations s.now) × ((from ≡ least s.now) × (Ticked s.now set.old l)))) }
    ensures { Improved s.now set.old set.new l gained result }
{
    if whole::has_saturated(set, l) {
        return false;
    }
    if some_from_saturated(s, set, l, gained) {
        whole::fill(set, l, from);
        return true;
    }
    if turns(s, set, l, gained, from) {
        lead::close(set, l, from);
        return true;
    }
    false
}

// Improves every location, the last one first; answers the set of those that have gained. What gains counts for those after it in the same sweep.
fn sweep(s: &[u8], set: &mut [u64], gained: u16, from: usize) -> u16
    requires { (WellFormed s.now) × ((Unsettled s.now set.old gained) × (from ≡ least s.now)) }
    ensures { Swept s.now set.old set.new result }
{
    let mut next = 0;
    for l in (0..usize::from(s[0])).rev() {
        if improve(s, set, l, gained | next, from) {
            next = locations::with(next, l);
        }
    }
    next
}

// The least second reading that occurs.
fn least(one: bool) -> usize
    ensures { result ≡ least_of one }
{
    if one { Monitor::TOP as usize } else { 0 }
}

// Sweeps over the transitions to locations that have gained, until none has.
fn live_set(s: &[u8]) -> Live
    requires { WellFormed s.now }
    ensures { LiveSet s.now result.set }
{
    let from = least(s[1] == 1);
    let mut set = [0u64; sets::SIZE];
    let mut gained = bytes::word_at(s, 4) as u16;
    whole::fill_each(&mut set, gained);
    // A loop to a fixpoint counts no index: no plainer as a `for`.
    while gained != 0 {
        gained = sweep(s, &mut set, gained, from);
    }
    Live { set: set }
}

// The table of live configurations.
pub fn live_table(s: &[u8]) -> Liveness
    requires { WellFormed s.now }
    ensures { LiveTable s.now result.counts }
{
    let live = live_set(s);
    let set = live.set;
    let mut counts = [0u8; Monitor::COUNTS];
    diagonals::count(&set, &mut counts, usize::from(s[0]), least(s[1] == 1));
    Liveness { counts }
}

// Whether an accepting location can still be reached.
pub fn is_live(s: &[u8], live: &[u8], l: u8, r: [u8; 2]) -> bool
    requires { (LiveTable s.now live.now) × (Standing s.now l r) }
    ensures { result ≡ (compile s.now).live (located l r) }
{
    diagonals::has(live, l, r[0], r[1])
}

// Whether a set has a live member.
pub fn any_live(s: &[u8], live: &[u8], set: &[u64], places: u16) -> bool
    requires { SetAsked s.now live.now set.now places }
    ensures { (result ≡ true) ↔ SomeLive s.now set.now }
{
    meet::meets(s, live, set, places)
}
