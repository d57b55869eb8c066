// A transition taken from the rows of its location into those of its target.
ghost use Rattle.std.specs.Prelude.{◌≡◌, length};
ghost use Rattle.enforcement.specs.Automaton.{transition_at};
ghost use Rattle.retimer.specs.Sets.{Fires, Fired};

use crate::clocks;
use crate::sets::{bounds, rows};

// Takes a transition where locations have one row: there is one clock, and at most the first is reset.
fn fire_row(s: &[u8], p: usize, src: &[u64], out: &mut [u64]) -> bool
    requires { (Fires s.now p src.now out.old) × (length src.now ≡ 1) }
    ensures { Fired (transition_at s.now p) src.now out.old out.new result }
{
    let cols = bounds::columns(s, p);
    let any = src[0] & cols;
    if s[p + 2] == 0 {
        out[0] = out[0] | any;
        return any != 0;
    }
    out[0] = out[0] | rows::flag(any);
    any != 0
}

// Adds to the target's rows what the transition at p leads to; answers whether it leads anywhere.
pub fn fire(s: &[u8], p: usize, src: &[u64], out: &mut [u64]) -> bool
    requires { Fires s.now p src.now out.old }
    ensures { Fired (transition_at s.now p) src.now out.old out.new result }
{
    if src.len() == 1 {
        return fire_row(s, p, src, out);
    }
    let cols = bounds::columns(s, p);
    let a = usize::from(s[p + 5]);
    let b = clocks::past(s[p + 6]);
    let set = s[p + 2];
    if set == 0 {
        return rows::add(src, cols, a, b, out) != 0;
    }
    if set == 1 {
        return rows::mark(src, cols, a, b, out) != 0;
    }
    let any = rows::union(src, cols, a, b);
    if set == 2 {
        rows::start(any, out);
        return any != 0;
    }
    rows::start(rows::flag(any), out);
    any != 0
}
