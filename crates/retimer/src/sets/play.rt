// An action played, after any wait, from a set of configurations.
ghost use Rattle.std.specs.Prelude.{◌≡◌, ◌+◌, ◌*◌, ◌≤◌, ◌<◌, length};
ghost use Rattle.enforcement.specs.Automaton.{transition_at, locations};
ghost use Rattle.enforcement.specs.Loading.{WellFormed, Fits};
ghost use Rattle.retimer.specs.Readings.{Standing, located};
ghost use Rattle.retimer.specs.Sets.{height, Whole, Cleared, Plays, FiredInto, PlayedAt, PlayedFrom, Reached, Played, Elapsed, Empty, Single};

use crate::limits::Monitor;
use crate::sets::{bounds, fire, rows};
use crate::{bytes, locations};

// Takes the transition at p from the rows of its location into a set; answers the target's place if it leads anywhere.
fn fire_into(s: &[u8], p: usize, src: &[u64], next: &mut [u64]) -> u16
    requires { (Plays s.now src.now next.old) × ((p + 7 ≤ length s.now) × (Fits s.now (transition_at s.now p))) }
    ensures { FiredInto s.now (transition_at s.now p) src.now next.old next.new result }
{
    let t = usize::from(s[p + 1]);
    let a = t * src.len();
    let e = a + src.len();
    if fire::fire(s, p, src, &mut next[a..e]) {
        return 1u16 << t;
    }
    0
}

// Plays an action from the rows of location l; answers the targets.
fn play_at(s: &[u8], c: u8, l: usize, src: &[u64], next: &mut [u64]) -> u16
    requires { (Plays s.now src.now next.old) × (l < locations s.now) }
    ensures { PlayedAt s.now c l src.now next.old next.new result }
{
    let pair = 6 + 4 * l;
    let first = bytes::word_at(s, pair);
    let size = bytes::word_at(s, pair + 2);
    let mut found = 0u16;
    // No `step_by`: most transitions are passed over, and that would make each cost more than half as much again.
    for k in 0..size / 7 {
        let p = first + 7 * k;
        if s[p] == c {
            found = found | fire_into(s, p, src, next);
        }
    }
    found
}

// Waits at location l, and plays an action from there.
fn play_from(s: &[u8], c: u8, l: usize, set: &mut [u64], next: &mut [u64]) -> u16
    requires { ((WellFormed s.now) × (l < locations s.now)) × ((Whole s.now set.old) × (Whole s.now next.old)) }
    ensures { PlayedFrom s.now c l set.old set.new next.old next.new result }
{
    let h = bounds::height(s);
    let a = l * h;
    let e = a + h;
    rows::wait(&mut set[a..e]);
    play_at(s, c, l, &set[a..e], next)
}

// Empties a set.
fn clear(set: &mut [u64])
    ensures { Cleared set.old set.new (length set.old) }
{
    set.fill(0);
}

// Waits, and plays an action: `next` becomes what it makes of the set, and the answer is where. The set becomes what any wait makes of it.
pub fn play(s: &[u8], c: u8, set: &mut [u64], places: u16, next: &mut [u64]) -> u16
    requires { (WellFormed s.now) × ((Reached s.now set.old places) × (Whole s.now next.old)) }
    ensures { (Played s.now c set.old next.new result) × (Elapsed s.now set.old set.new places) }
{
    clear(next);
    let mut found = 0u16;
    for l in 0..usize::from(s[0]) {
        if locations::has(places, l) {
            found = found | play_from(s, c, l, set, next);
        }
    }
    found
}

// How many numbers a set of the automaton's configurations has.
pub fn size(s: &[u8]) -> usize
    requires { WellFormed s.now }
    ensures { result ≡ locations s.now * height s.now }
{
    usize::from(s[0]) * bounds::height(s)
}

// Puts a configuration into an empty set; answers its place.
pub fn begin(s: &[u8], l: u8, r: [u8; 2], set: &mut [u64]) -> u16
    requires { (WellFormed s.now) × ((Standing s.now l r) × (Empty s.now set.old)) }
    ensures { Single s.now (located l r) set.new result }
{
    let h = bounds::height(s);
    let i = usize::from(l) * h + (usize::from(r[1]) + h - Monitor::WIDTH);
    set[i] = 1u64 << r[0];
    1u16 << l
}
