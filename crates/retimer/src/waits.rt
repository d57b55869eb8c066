// The waits at which a transition is enabled: an interval, straight from the bytes.
ghost use Rattle.std.specs.Prelude.{◌≡◌, ◌+◌, ◌-◌, ◌≤◌, length};
ghost use Rattle.enforcement.specs.Automaton.{transition_at};
ghost use Rattle.enforcement.specs.Model.{top};
ghost use Rattle.retimer.specs.Waits.{saturation, first_wait, end_of, end_wait};

use crate::limits::Monitor;

// The least wait after which a reading is at least low.
fn up_to(low: u8, x: u8) -> u8
    ensures { result ≡ low - x }
{
    if x < low { low - x } else { 0 }
}

// One more than the last wait, at most cap, after which a reading is at most high; 0 if it is above already. The high 255 is further from every reading up to saturation than any cap.
fn ends(high: u8, x: u8, cap: u8) -> u8
    requires { cap ≤ top }
    ensures { result ≡ end_of high x cap }
{
    if high < x {
        return 0;
    }
    (high - x).min(cap) + 1
}

// The wait from which on both readings are saturated.
fn saturation(x: u8, y: u8) -> u8
    requires { (x ≤ top) × (y ≤ top) }
    ensures { result ≡ saturation x y }
{
    Monitor::TOP - x.min(y)
}

// The first wait after which the transition at p has both lows behind it.
pub fn first_wait(s: &[u8], p: usize, x: u8, y: u8) -> u8
    requires { p + 7 ≤ length s.now }
    ensures { result ≡ first_wait (transition_at s.now p) x y }
{
    up_to(s[p + 3], x).max(up_to(s[p + 5], y))
}

// One more than the last wait, up to saturation, at which both highs hold.
pub fn end_wait(s: &[u8], p: usize, x: u8, y: u8) -> u8
    requires { (p + 7 ≤ length s.now) × ((x ≤ top) × (y ≤ top)) }
    ensures { result ≡ end_wait (transition_at s.now p) x y }
{
    let cap = saturation(x, y);
    ends(s[p + 4], x, cap).min(ends(s[p + 6], y, cap))
}
