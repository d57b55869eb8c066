// The transition that an action takes from a configuration, straight from the bytes.
ghost use Rattle.std.specs.Prelude.{◌≡◌, ◌+◌, ◌≤◌, length};
ghost use Rattle.enforcement.specs.Automaton.{transition_at, enabled};
ghost use Rattle.enforcement.specs.Loading.{WellFormed};
ghost use Rattle.retimer.specs.Readings.{Standing};
ghost use Rattle.retimer.specs.Steps.{applies, Placed, StepRight};

use crate::{bytes, clocks};

// Where an action leads; the configuration that was left where no transition is enabled. No Option: the clause `StepRight.stays` and the edit `step_leaves_unfound` hold what is left then.
#[derive(Clone, Copy)]
pub struct Stepped {
    pub found: bool,
    pub location: u8,
    pub readings: [u8; 2],
}

// Whether the readings enable the transition at a place: each lies from its low to its high.
pub fn enabled(s: &[u8], p: usize, x: u8, y: u8) -> bool
    requires { p + 7 ≤ length s.now }
    ensures { result ≡ enabled (transition_at s.now p) x y }
{
    if !clocks::within(s[p + 3], s[p + 4], x) {
        return false;
    }
    clocks::within(s[p + 5], s[p + 6], y)
}

// Whether the transition at a place is for the action, and the readings enable it.
fn applies(s: &[u8], p: usize, c: u8, x: u8, y: u8) -> bool
    requires { p + 7 ≤ length s.now }
    ensures { result ≡ applies s.now p c x y }
{
    if s[p] != c {
        return false;
    }
    enabled(s, p, x, y)
}

// The place of the first transition of the location that is for the action and enabled.
fn find(s: &[u8], c: u8, l: u8, r: [u8; 2]) -> Option<usize>
    requires { (WellFormed s.now) × (Standing s.now l r) }
    ensures { Placed s.now c l r result }
{
    let pair = 6 + 4 * usize::from(l);
    let start = bytes::word_at(s, pair);
    let size = bytes::word_at(s, pair + 2);
    let x = r[0];
    let y = r[1];
    // No `step_by`, for the reason that `sets::play::play_at` has.
    for k in 0..size / 7 {
        let p = start + 7 * k;
        if applies(s, p, c, x, y) {
            return Some(p);
        }
    }
    None
}

// Takes the transition of the action that is enabled, if there is one.
pub fn step(s: &[u8], c: u8, l: u8, r: [u8; 2]) -> Stepped
    requires { (WellFormed s.now) × (Standing s.now l r) }
    ensures { StepRight s.now c l r result }
{
    match find(s, c, l, r) {
        Some(p) => Stepped {
            found: true,
            location: s[p + 1],
            readings: clocks::reset(r, s[p + 2]),
        },
        None => Stepped {
            found: false,
            location: l,
            readings: r,
        },
    }
}
