// Whether a list of actions has a correction, is extensible, or is dead, by the sets of configurations that it can lead to.
ghost use Rattle.std.specs.Prelude.{◌≡◌, ◌+◌, ◌*◌, ◌<◌, ◌≤◌, length, drop};
ghost use Rattle.enforcement.specs.Limits.{max_count};
ghost use Rattle.enforcement.specs.Automaton.{locations};
ghost use Rattle.enforcement.specs.Model.{width, prospect, compile};
ghost use Rattle.enforcement.specs.Monitor.{is_dead, is_lit};
ghost use Rattle.retimer.specs.Readings.{located};
ghost use Rattle.retimer.specs.Optimum.{LampAsked};
ghost use Rattle.retimer.specs.Sets.{height, Empty};
ghost use Rattle.retimer.specs.Outlook.{outlook_of, front_of, Rated, RatedLast, SetAsked, Searched};

use crate::outlook::Outlook;
use crate::sets::{SIZE, SIZE_OF_ONE_CLOCK, play};
use crate::{bytes, liveness, outlook};

// The outlook where all is played: by the set reached and, where that is dead, the lamp by the set before the last action.
fn rate(s: &[u8], live: &[u8], set: &[u64], places: u16, next: &[u64], found: u16) -> Outlook
    requires { (SetAsked s.now live.now set.now places) × (SetAsked s.now live.now next.now found) }
    ensures { RatedLast s.now set.now next.now result }
{
    let accepting = bytes::word_at(s, 4) as u16;
    if found & accepting != 0 {
        return Outlook::Correct;
    }
    if liveness::any_live(s, live, next, found) {
        return Outlook::Extensible;
    }
    Outlook::Dead {
        lit: !liveness::any_live(s, live, set, places),
    }
}

// The outlook of the actions from k on, from a set. The other slice is room for the next set: the two change places with each action but the last.
fn outlook_from(
    s: &[u8],
    live: &[u8],
    cs: &[u8],
    k: usize,
    set: &mut [u64],
    places: u16,
    next: &mut [u64],
) -> Outlook
    requires { Searched s.now live.now cs.now k set.old places next.old }
    ensures { Rated s.now (drop k cs.now) set.old result }
{
    let found = play::play(s, cs[k], set, places, next);
    if k + 1 == cs.len() {
        return rate(s, live, set, places, next, found);
    }
    // Another action is left, so without the last nothing is reached either.
    if found == 0 {
        return Outlook::Dead { lit: true };
    }
    outlook_from(s, live, cs, k + 1, next, found, set)
}

// The outlook of two actions or more, in two sets that are lent empty.
fn outlook_in(
    s: &[u8],
    live: &[u8],
    cs: &[u8],
    l: u8,
    r: [u8; 2],
    set: &mut [u64],
    next: &mut [u64],
) -> Outlook
    requires { ((LampAsked s.now live.now l r) × (1 < length cs.now)) × ((Empty s.now set.old) × (Empty s.now next.old)) }
    ensures { result ≡ outlook_of (prospect (compile s.now) cs.now (located l r)) (is_lit (compile s.now) (located l r) (front_of cs.now)) }
{
    let places = play::begin(s, l, r, set);
    outlook_from(s, live, cs, 0, set, places, next)
}

// The same, in two sets of N numbers.
fn outlook_sized<const N: usize>(s: &[u8], live: &[u8], cs: &[u8], l: u8, r: [u8; 2]) -> Outlook
    requires { ((LampAsked s.now live.now l r) × (1 < length cs.now)) × ((locations s.now * height s.now ≤ N) × (N ≤ max_count * width)) }
    ensures { result ≡ outlook_of (prospect (compile s.now) cs.now (located l r)) (is_lit (compile s.now) (located l r) (front_of cs.now)) }
{
    let mut set = [0u64; N];
    let mut next = [0u64; N];
    let n = play::size(s);
    outlook_in(s, live, cs, l, r, &mut set[..n], &mut next[..n])
}

// What a list of actions comes to from a configuration.
pub fn outlook_of<'a>(s: &'a [u8], live: &'a [u8], cs: &[u8], l: u8, r: [u8; 2]) -> Outlook
    requires { (LampAsked s.now live.now l r) × (0 < length cs.now) }
    ensures { result ≡ outlook_of (prospect (compile s.now) cs.now (located l r)) (is_lit (compile s.now) (located l r) (front_of cs.now)) }
{
    if cs.len() == 1 {
        return outlook::single(s, live, cs[0], l, r);
    }
    // With one clock a set is small; with two it is not.
    if s[1] == 1 {
        return outlook_sized::<SIZE_OF_ONE_CLOCK>(s, live, cs, l, r);
    }
    outlook_sized::<SIZE>(s, live, cs, l, r)
}

// Whether nothing can bring acceptance after these actions.
pub fn is_dead<'a>(s: &'a [u8], live: &'a [u8], cs: &[u8], l: u8, r: [u8; 2]) -> bool
    requires { (LampAsked s.now live.now l r) × (0 < length cs.now) }
    ensures { result ≡ is_dead (prospect (compile s.now) cs.now (located l r)) }
{
    let o = outlook_of(s, live, cs, l, r);
    match o {
        Outlook::Correct => false,
        Outlook::Extensible => false,
        Outlook::Dead { lit: _ } => true,
    }
}
