// How many rows a location has, and the readings that a transition allows.
ghost use Rattle.std.specs.Prelude.{◌≡◌, ◌+◌, ◌≤◌, ◌<◌, length};
ghost use Rattle.enforcement.specs.Automaton.{transition_at};
ghost use Rattle.enforcement.specs.Loading.{Fits};
ghost use Rattle.retimer.specs.Sets.{height, Columns};

use crate::clocks;
use crate::limits::Monitor;
use crate::sets::row;

// How many rows a location has.
pub fn height(s: &[u8]) -> usize
    requires { 1 < length s.now }
    ensures { result ≡ height s.now }
{
    if s[1] == 1 {
        return 1;
    }
    Monitor::WIDTH
}

// The readings of the first clock that the transition at p allows.
pub fn columns(s: &[u8], p: usize) -> u64
    requires { (p + 7 ≤ length s.now) × (Fits s.now (transition_at s.now p)) }
    ensures { Columns (transition_at s.now p) result }
{
    row::interval(usize::from(s[p + 3]), clocks::past(s[p + 4]))
}
