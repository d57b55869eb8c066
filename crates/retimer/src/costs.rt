// The least ticks of a list of actions. Costs are kept only where a reading is 0, as right after a reset; from there the search stays on one diagonal until the next reset.
ghost use Rattle.std.specs.Prelude.{◌≡◌, cond, ◌+◌, ◌≤◌, ◌<◌, length, drop};
ghost use Rattle.enforcement.specs.Limits.{max_count};
ghost use Rattle.enforcement.specs.Automaton.{accepting, locations, transition_at};
ghost use Rattle.enforcement.specs.Loading.{WellFormed, Fits};
ghost use Rattle.enforcement.specs.Model.{top};
ghost use Rattle.retimer.specs.Readings.{located, Standing};
ghost use Rattle.retimer.specs.Costs.{never, cost_at, configuration, just_reset, place_of, Ground, Costed, AfterAsked};
ghost use Rattle.retimer.specs.Chains.{Chain, Searching, Arrived, kept_at, worth, OverAsked, OverDone, Rule, Rules, Gained, Played};

use crate::limits::Monitor;
use crate::{bytes, clocks, liveness, locations, waits};

// The cost where a list has no correction: one more than the most ticks of a correction. A number and no None: the least of costs is taken with it, and a memo's cell has two bytes.
pub const NEVER: u16 = Monitor::LONGEST as u16 + 1;

// A chain: the locations that are reached along a diagonal without a reset, and the least ticks so far of what left it or ended. Their positions stand in an array beside it.
#[derive(Clone, Copy)]
struct Front {
    places: u16,
    best: u16,
}

// The memo's place for the action k next, a location, and the reading that is kept.
pub fn place(k: usize, l: u8, z: u8) -> usize
    requires { (1 ≤ k) × ((k ≤ max_count) × ((l < max_count) × (z ≤ top))) }
    ensures { result ≡ place_of k l z }
{
    ((k - 1) * Monitor::COUNT + usize::from(l)) * Monitor::WIDTH + usize::from(z)
}

// The reading that a transition keeps whose reset set is not empty, u ticks after the readings x and y; 0 where it keeps none.
fn kept(set: u8, x: u8, y: u8, u: u8) -> u8
    requires { ((set ≡ 0 → ⊥) × (set ≤ 3)) × ((x ≤ top) × (y ≤ top)) }
    ensures { (result ≡ kept_at set x y u) × (result ≤ top) }
{
    if set == 1 {
        return clocks::later(y, u32::from(u));
    }
    if set == 2 {
        return clocks::later(x, u32::from(u));
    }
    0
}

// How many of n positions are worth a look, where the reading that is kept is z at the first: those up to its saturation, and one alone where none is kept.
fn worth(set: u8, z: u8, n: u8) -> u8
    requires { (set ≤ 3) × (z ≤ top) }
    ensures { result ≡ worth set z n }
{
    if set == 3 {
        return n.min(1);
    }
    n.min(Monitor::TOP - z + 1)
}

// A location is reached at a position: the sooner of that and of the one it has is kept.
fn reach(next: &mut [u8], t: usize, u: u8, front: Front) -> Front
    requires { (t < length next.old) × (t < max_count) }
    ensures { (Arrived next.old front.places t u next.new result.places) × (result.best ≡ front.best) }
{
    if locations::has(front.places, t) {
        if u < next[t] {
            next[t] = u;
        }
        return front;
    }
    next[t] = u;
    Front {
        places: locations::with(front.places, t),
        best: front.best,
    }
}

// The cost where all is played.
pub fn ending(s: &[u8], l: u8) -> u16
    requires { (WellFormed s.now) × (l < max_count) }
    ensures { result ≡ cond (accepting s.now l) 0 never }
{
    if liveness::accepts(s, usize::from(l)) {
        0
    } else {
        NEVER
    }
}

// The last action leads to a location at a position that is before the least so far.
fn finish(s: &[u8], t: usize, u: u8, front: Front) -> Front
    requires { (WellFormed s.now) × (t < max_count) }
    ensures { (result.places ≡ front.places) × (result.best ≡ cond (accepting s.now t) u front.best) }
{
    if liveness::accepts(s, t) {
        return Front {
            places: front.places,
            best: u16::from(u),
        };
    }
    front
}

// The least ticks of the actions from k on, right after a reset of the second clock or of the first, with the other's reading: from its memo, or worked out and kept there.
#[cycle(after_chain_leave_over_play_rule)]
fn after<'a>(
    s: &'a [u8],
    cs: &'a [u8],
    k: usize,
    l: u8,
    clock: bool,
    z: u8,
    first: &mut [u16],
    second: &mut [u16],
) -> u16
    requires { AfterAsked s.now cs.now k l z first.old second.old }
    ensures { Costed s.now cs.now first.new second.new (cost_at s.now (drop k cs.now) (just_reset clock l z)) result }
{
    let i = place(k, l, z);
    // A cell of a memo has two bytes: 0 where nothing is known, else one more than the cost.
    let (known, x, y) = if clock {
        (second[i], z, 0)
    } else {
        (first[i], 0, z)
    };
    if 0 < known {
        return known - 1;
    }
    let v = chain(s, cs, k, l, x, y, first, second);
    if clock {
        second[i] = v + 1;
    } else {
        first[i] = v + 1;
    }
    v
}

// The same from any readings, along their diagonal: as long as no transition resets a clock only the location and the position change, and earlier is better.
#[cycle(after_chain_leave_over_play_rule)]
fn chain<'a>(
    s: &'a [u8],
    cs: &'a [u8],
    k: usize,
    l: u8,
    x: u8,
    y: u8,
    first: &mut [u16],
    second: &mut [u16],
) -> u16
    requires { (Searching s.now cs.now k x y first.old second.old) × (l < locations s.now) }
    ensures { Costed s.now cs.now first.new second.new (cost_at s.now (drop k cs.now) (configuration l x y)) result }
{
    let mut here = [0u8; Monitor::COUNT];
    let mut front = Front {
        places: locations::with(0, usize::from(l)),
        best: NEVER,
    };
    // No count: it ends where no location is left.
    let mut i = k;
    while front.places != 0 {
        let mut next = [0u8; Monitor::COUNT];
        front = play(s, cs, i, x, y, &here, front, &mut next, first, second);
        here = next;
        i += 1;
    }
    front.best
}

// One action from all locations of a chain: the chain one action later.
#[cycle(after_chain_leave_over_play_rule)]
fn play<'a>(
    s: &'a [u8],
    cs: &'a [u8],
    k: usize,
    x: u8,
    y: u8,
    here: &'a [u8],
    front: Front,
    next: &mut [u8],
    first: &mut [u16],
    second: &mut [u16],
) -> Front
    requires { (Searching s.now cs.now k x y first.old second.old) × ((Chain s.now x y here.now front.places front.best) × (length next.old ≡ max_count)) }
    ensures { Played s.now cs.now k x y here.now front.places front.best next.new result.places result.best first.new second.new }
{
    let mut found = Front {
        places: 0,
        best: front.best,
    };
    // A walk over set bits: no count.
    let mut left = front.places;
    while 0 < left {
        let l = u16::trailing_zeros(left) as u8;
        let e = here[usize::from(l)];
        found = leave(s, cs, k, l, e, x, y, found, next, first, second);
        left = left & (left - 1);
    }
    found
}

// All transitions for an action of a location that is reached at position e.
#[cycle(after_chain_leave_over_play_rule)]
fn leave<'a>(
    s: &'a [u8],
    cs: &'a [u8],
    k: usize,
    l: u8,
    e: u8,
    x: u8,
    y: u8,
    front: Front,
    next: &mut [u8],
    first: &mut [u16],
    second: &mut [u16],
) -> Front
    requires { (Searching s.now cs.now k x y first.old second.old) × ((Chain s.now x y next.old front.places front.best) × (l < locations s.now)) }
    ensures { Gained s.now cs.now k x y (Rules s.now cs.now k x y l e) next.old front.places front.best next.new result.places result.best first.new second.new }
{
    let pair = 6 + 4 * usize::from(l);
    let start = bytes::word_at(s, pair);
    let size = bytes::word_at(s, pair + 2);
    let mut found = front;
    // No `step_by`, for the reason that `sets::play::play_at` has.
    for i in 0..size / 7 {
        let p = start + 7 * i;
        found = rule(s, cs, k, p, e, x, y, found, next, first, second);
    }
    found
}

// One transition, if it is for the action: to the end if that is the last action, along the diagonal if no clock is reset, else the costs after it.
#[cycle(after_chain_leave_over_play_rule)]
fn rule<'a>(
    s: &'a [u8],
    cs: &'a [u8],
    k: usize,
    p: usize,
    e: u8,
    x: u8,
    y: u8,
    front: Front,
    next: &mut [u8],
    first: &mut [u16],
    second: &mut [u16],
) -> Front
    requires { (Searching s.now cs.now k x y first.old second.old) × ((Chain s.now x y next.old front.places front.best) × ((p + 7 ≤ length s.now) × (Fits s.now (transition_at s.now p)))) }
    ensures { Gained s.now cs.now k x y (λ w. Rule s.now cs.now k x y e w (transition_at s.now p)) next.old front.places front.best next.new result.places result.best first.new second.new }
{
    if s[p] != cs[k] {
        return front;
    }
    let from = e.max(waits::first_wait(s, p, x, y));
    let end = waits::end_wait(s, p, x, y);
    if end <= from {
        return front;
    }
    if front.best <= from as u16 {
        return front;
    }
    let t = s[p + 1];
    if k + 1 == cs.len() {
        return finish(s, usize::from(t), from, front);
    }
    let set = s[p + 2];
    if set == 0 {
        return reach(next, usize::from(t), from, front);
    }
    let z = kept(set, x, y, from);
    let n = worth(set, z, end - from);
    let best = over(s, cs, k, t, set == 2, z, n, from, front.best, first, second);
    Front {
        places: front.places,
        best,
    }
}

// The least of best and of the costs right after a reset at n positions from `from` on, with the readings from z on.
#[cycle(after_chain_leave_over_play_rule)]
fn over<'a>(
    s: &'a [u8],
    cs: &'a [u8],
    k: usize,
    t: u8,
    clock: bool,
    z: u8,
    n: u8,
    from: u8,
    best: u16,
    first: &mut [u16],
    second: &mut [u16],
) -> u16
    requires { OverAsked s.now cs.now k t z n from first.old second.old }
    ensures { OverDone s.now cs.now k t clock z n from best result first.new second.new }
{
    let mut v = best;
    for i in 0..n {
        let u = u16::from(from + i);
        if v <= u {
            return v;
        }
        let c = after(s, cs, k + 1, t, clock, z + i, first, second) + u;
        v = v.min(c);
    }
    v
}

// The least ticks of the actions from k on, or the cost of no correction.
pub fn cost<'a>(
    s: &'a [u8],
    cs: &'a [u8],
    k: usize,
    l: u8,
    r: [u8; 2],
    first: &mut [u16],
    second: &mut [u16],
) -> u16
    requires { (Ground s.now cs.now first.old second.old) × ((k ≤ length cs.now) × (Standing s.now l r)) }
    ensures { Costed s.now cs.now first.new second.new (cost_at s.now (drop k cs.now) (located l r)) result }
{
    if k == cs.len() {
        return ending(s, l);
    }
    let x = r[0];
    let y = r[1];
    if k == 0 {
        return chain(s, cs, k, l, x, y, first, second);
    }
    if x == 0 {
        return after(s, cs, k, l, false, y, first, second);
    }
    if y == 0 {
        return after(s, cs, k, l, true, x, first, second);
    }
    chain(s, cs, k, l, x, y, first, second)
}
