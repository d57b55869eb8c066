// A block of calls on a box, and its lines.
ghost use Rattle.std.specs.Prelude.{◌+◌, ◌*◌, ◌/◌, ◌^◌, ◌≤◌, ◌<◌, length};
ghost use Rattle.retimer.specs.View.{Valid};
ghost use Rattle.marking.specs.Marks.{MarkRight};

use report::line;
use retimer::limits::Monitor;
use retimer::replay;

// The bytes of a call, the most calls of a block, and the room for their lines and one more.
pub const CALL: usize = 5;

pub const CALLS: usize = 100;

pub const BYTES: usize = CALL * CALLS;

pub const LINES: usize = line::LINE * (CALLS + 1);

// The box after a block, how many calls were made so far, and the size of the block's lines.
#[derive(Clone, Copy)]
pub struct Marked {
    pub monitor: Monitor,
    pub calls: u64,
    pub size: usize,
}

// Makes the whole calls of a block, where n calls came before, and writes their lines; bytes left over have a line too.
#[inline(never)]
pub fn mark(start: Monitor, calls: &[u8], n: u64, out: &mut [u8]) -> Marked
    requires { (Valid start) × ((n + length calls.now / 5 < 2 ^ 64) × (120 * (length calls.now / 5) + 120 ≤ length out.old)) }
    ensures { MarkRight start calls.now n out.old out.new result }
{
    let size = start.size;
    let sheet: &[u8] = &start.bytes;
    let live: &[u8] = &start.live;
    let mut state = start.state;
    let whole = calls.len() / CALL;
    let mut end: usize = 0;
    for k in 0..whole {
        let called = replay::call_at(&sheet[..size], live, state, calls, CALL * k);
        let answer = called.answer;
        state = called.state;
        let lit = state.lit;
        end = line::call_line(out, end, n + k as u64 + 1, answer, lit);
    }
    let written = line::tail_line(out, end, calls.len() % CALL);
    Marked {
        monitor: start.with_state(state),
        calls: n + whole as u64,
        size: written,
    }
}
