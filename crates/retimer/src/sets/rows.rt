// The rows of a location: waiting, and the parts of a transition.
ghost use Rattle.std.specs.Prelude.{ℕ, ◌≤◌, ◌<◌, ◌^◌, length};
ghost use Rattle.enforcement.specs.Model.{width};
ghost use Rattle.retimer.specs.Row.{In, Flag};
ghost use Rattle.retimer.specs.Sets.{Narrow, Waited, United, Adds, Joined, Kept, Reset, Gains};

use crate::sets::row;

// Adds what waiting makes of the rows. In the last row the second reading is saturated, and only the first still grows.
pub fn wait(rows: &mut [u64])
    requires { (1 ≤ length rows.old) × (Narrow rows.old) }
    ensures { Waited rows.old rows.new }
{
    let last = rows.len() - 1;
    // The row before stays at hand: reading it back is slower.
    let mut row = rows[0];
    // From 0 on, which the compiler unrolls with one jump for two rows.
    for i in 0..last {
        row = rows[i + 1] | row::tick(row);
        rows[i + 1] = row;
    }
    rows[last] = row::upward(row);
}

// The readings in the rows from a up to b that are in cols.
pub fn union(src: &[u64], cols: u64, a: usize, b: usize) -> u64
    requires { (a ≤ b) × ((b ≤ length src.now) × (cols < 2 ^ width)) }
    ensures { United src.now cols a b result }
{
    let mut any = 0u64;
    for i in a..b {
        any = any | src[i];
    }
    any & cols
}

// Adds to the rows from a up to b what is made of their readings in cols, and answers these.
fn join<F: Fn(u64) -> u64>(
    src: &[u64],
    cols: u64,
    a: usize,
    b: usize,
    out: &mut [u64],
    made: F,
) -> u64
    requires { (Adds src.now cols a b out.old) × (F.IsAlwaysCallable made) }
    ensures { (Gains src.now out.old out.new cols a b (F.post made)) × (United src.now cols a b result) }
{
    let mut any = 0u64;
    for i in a..b {
        any = any | src[i];
        out[i] = out[i] | made(src[i] & cols);
    }
    any & cols
}

// Adds the readings in the rows from a up to b that are in cols, and answers them: no clock is reset.
pub fn add(src: &[u64], cols: u64, a: usize, b: usize, out: &mut [u64]) -> u64
    requires { Adds src.now cols a b out.old }
    ensures { (Joined out.old out.new (Kept src.now cols) a b) × (United src.now cols a b result) }
{
    join(src, cols, a, b, out, |e| e)
}

// The reading 0, if there is any in e.
pub fn flag(e: u64) -> u64
    ensures { Flag e result }
{
    u64::from(e != 0)
}

// Adds the reading 0 to each of the rows from a up to b that has readings in cols, and answers these: the first clock is reset.
pub fn mark(src: &[u64], cols: u64, a: usize, b: usize, out: &mut [u64]) -> u64
    requires { Adds src.now cols a b out.old }
    ensures { (Joined out.old out.new (Reset src.now cols) a b) × (United src.now cols a b result) }
{
    join(src, cols, a, b, out, flag)
}

// Adds readings to the first row: the second clock is reset.
pub fn start(row: u64, out: &mut [u64])
    requires { (1 ≤ length out.old) × ((row < 2 ^ width) × (Narrow out.old)) }
    ensures { Joined out.old out.new (λ (x i : ℕ). In x row) 0 1 }
{
    out[0] = out[0] | row;
}
