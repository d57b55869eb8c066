// The dates of a list of actions that has a correction: the least ticks, and each action as soon as that keeps them.
ghost use Rattle.std.specs.Prelude.{◌≡◌, true, false, ◌+◌, ◌≤◌, ◌<◌, length, set};
ghost use Rattle.retimer.specs.Readings.{Standing};
ghost use Rattle.enforcement.specs.Limits.{max_count};
ghost use Rattle.retimer.specs.Costs.{places_for, Known, Ground};
ghost use Rattle.retimer.specs.Optimum.{Asked, PlanRight};
ghost use Rattle.retimer.specs.Dates.{AheadRight, Dating, Written};

use crate::limits::Monitor;
use crate::{clocks, costs, layers, lookup};

// The least ticks of a list of actions, and the configuration after them.
#[derive(Clone, Copy)]
pub struct Planned {
    pub value: u16,
    pub location: u8,
    pub readings: [u8; 2],
}

// A configuration.
#[derive(Clone, Copy)]
struct Reached {
    location: u8,
    readings: [u8; 2],
}

// Where an action leads that is played now, and the cost from there.
#[derive(Clone, Copy)]
struct Ahead {
    cost: u16,
    location: u8,
    readings: [u8; 2],
}

// The most actions of a short list, and the places of a memo for a short list and for any.
const FEW: usize = 5;

const FEW_PLACES: usize = (FEW - 1) * Monitor::COUNT * Monitor::WIDTH;

const PLACES: usize = (Monitor::BATCH - 1) * Monitor::COUNT * Monitor::WIDTH;

// Looks at playing the action k now: None where no transition is enabled.
fn look<'a>(
    s: &'a [u8],
    cs: &'a [u8],
    k: usize,
    l: u8,
    r: [u8; 2],
    first: &mut [u16],
    second: &mut [u16],
) -> Option<Ahead>
    requires { (Ground s.now cs.now first.old second.old) × ((k < length cs.now) × (Standing s.now l r)) }
    ensures { AheadRight s.now cs.now k l r first.new second.new result }
{
    let next = lookup::step(s, cs[k], l, r);
    if !next.found {
        return None;
    }
    let readings = next.readings;
    let cost = costs::cost(s, cs, k + 1, next.location, readings, first, second);
    Some(Ahead {
        cost,
        location: next.location,
        readings,
    })
}

// Plays the action k as soon as that keeps the least ticks, which are v, and goes on with those after it.
#[cycle(playing_waiting)]
fn waiting<'a>(
    s: &'a [u8],
    cs: &'a [u8],
    k: usize,
    l: u8,
    r: [u8; 2],
    t: u32,
    v: u16,
    first: &mut [u16],
    second: &mut [u16],
    out: &mut [u32],
) -> Reached
    requires { Dating s.now cs.now k l r t v first.old second.old out.old }
    ensures { Written s.now cs.now k l r t out.old out.new result }
{
    if k == cs.len() {
        return Reached {
            location: l,
            readings: r,
        };
    }
    match look(s, cs, k, l, r, first, second) {
        Some(q) if q.cost == v => playing(
            s, cs, k, q.location, q.readings, t, v, first, second, out,
        ),
        _ => waiting(
            s,
            cs,
            k,
            l,
            clocks::wait(r),
            t + 1,
            v - 1,
            first,
            second,
            out,
        ),
    }
}

// Plays the action k at date t; the configuration is the one after it.
#[cycle(playing_waiting)]
fn playing<'a>(
    s: &'a [u8],
    cs: &'a [u8],
    k: usize,
    l: u8,
    r: [u8; 2],
    t: u32,
    v: u16,
    first: &mut [u16],
    second: &mut [u16],
    out: &mut [u32],
) -> Reached
    requires { (Dating s.now cs.now (k + 1) l r t v first.old second.old out.old) × (k < length cs.now) }
    ensures { Written s.now cs.now (k + 1) l r t (set out.old k t) out.new result }
{
    out[k] = t;
    waiting(s, cs, k + 1, l, r, t, v, first, second, out)
}

// The plan, with memos that are right.
fn solve<'a>(
    s: &'a [u8],
    cs: &'a [u8],
    l: u8,
    r: [u8; 2],
    t: u32,
    out: &mut [u32],
    first: &mut [u16],
    second: &mut [u16],
) -> Planned
    requires { (Asked s.now cs.now l r t out.old) × ((Known s.now cs.now false first.old) × (Known s.now cs.now true second.old)) }
    ensures { PlanRight s.now cs.now l r t out.old out.new result }
{
    let v = costs::cost(s, cs, 0, l, r, first, second);
    let last = waiting(s, cs, 0, l, r, t, v, first, second, out);
    let readings = last.readings;
    Planned {
        value: v,
        location: last.location,
        readings,
    }
}

// At most one action: no memo is needed.
fn plan_one<'a>(s: &'a [u8], cs: &'a [u8], l: u8, r: [u8; 2], t: u32, out: &mut [u32]) -> Planned
    requires { (Asked s.now cs.now l r t out.old) × (length cs.now ≤ 1) }
    ensures { PlanRight s.now cs.now l r t out.old out.new result }
{
    let mut first = [0u16; 0];
    let mut second = [0u16; 0];
    solve(s, cs, l, r, t, out, &mut first, &mut second)
}

// The plan, with the first memo at hand and a second one of N places. For a list that is not short, on two clocks, all that the search can ask the memos for is worked out first, so that it
// finds each cost right after a reset at hand.
#[inline(never)]
fn with_second_memo<'a, const N: usize>(
    s: &'a [u8],
    cs: &'a [u8],
    l: u8,
    r: [u8; 2],
    t: u32,
    out: &mut [u32],
    first: &mut [u16],
) -> Planned
    requires { (Asked s.now cs.now l r t out.old) × (((places_for (length cs.now) ≤ N) × (N ≤ places_for (max_count + 1))) × (Known s.now cs.now false first.old)) }
    ensures { PlanRight s.now cs.now l r t out.old out.new result }
{
    let mut second = [0u16; N];
    if FEW < cs.len() {
        layers::layers(s, cs, l, first, &mut second);
    }
    solve(s, cs, l, r, t, out, first, &mut second)
}

// The plan, with memos of N places. Each memo has a frame of its own, so that no frame is large: the compiler is not to join the two functions.
#[inline(never)]
fn with_memos<'a, const N: usize>(
    s: &'a [u8],
    cs: &'a [u8],
    l: u8,
    r: [u8; 2],
    t: u32,
    out: &mut [u32],
) -> Planned
    requires { (Asked s.now cs.now l r t out.old) × ((places_for (length cs.now) ≤ N) × (N ≤ places_for (max_count + 1))) }
    ensures { PlanRight s.now cs.now l r t out.old out.new result }
{
    let mut first = [0u16; N];
    with_second_memo::<N>(s, cs, l, r, t, out, &mut first)
}

// The least ticks of a list that has a correction, its dates from t on, and the configuration after them.
pub fn plan<'a>(s: &'a [u8], cs: &'a [u8], l: u8, r: [u8; 2], t: u32, out: &mut [u32]) -> Planned
    requires { Asked s.now cs.now l r t out.old }
    ensures { PlanRight s.now cs.now l r t out.old out.new result }
{
    if cs.len() <= 1 {
        return plan_one(s, cs, l, r, t, out);
    }
    if cs.len() <= FEW {
        return with_memos::<FEW_PLACES>(s, cs, l, r, t, out);
    }
    with_memos::<PLACES>(s, cs, l, r, t, out)
}
