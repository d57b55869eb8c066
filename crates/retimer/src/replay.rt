// A list of calls as the desk program reads them, on a fresh box.
ghost use Rattle.std.specs.Prelude.{◌+◌, ◌≤◌, length};
ghost use Rattle.retimer.specs.View.{StateValid};
ghost use Rattle.retimer.specs.Calls.{MoveRight};
ghost use Rattle.retimer.specs.Replay.{call_at, ReplayRight};

use crate::bytes;
use crate::limits::{Monitor, State};
use crate::reason::Reason;
use crate::sheet::Counts;
use crate::state::{Answer, Moved};

// The check's answer, the last box, and the last answer; "none" where there was no call. After a refused load `Monitor::nothing` stands in the box's place, as `ReplayRight.no_box` promises.
#[derive(Clone, Copy)]
pub struct Replayed {
    pub checked: Result<Counts, Reason>,
    pub monitor: Monitor,
    pub answer: Answer,
}

// The call in five bytes from i on, on the state of a box with the sheet and its table.
pub fn call_at<'a>(sheet: &'a [u8], live: &'a [u8], state: State, calls: &[u8], i: usize) -> Moved
    requires { (StateValid sheet.now live.now state) × (i + 5 ≤ length calls.now) }
    ensures { MoveRight sheet.now live.now state (call_at calls.now i) result }
{
    let t = bytes::double_word_at(calls, i + 1);
    let c = calls[i];
    if c == 255 {
        return state.collect(sheet, live, t);
    }
    state.offer(sheet, live, c, t)
}

// The calls of a list of bytes, from a fresh box of a sheet that is loaded at a date.
pub fn replay(s: &[u8], loaded: u32, calls: &[u8]) -> Replayed
    ensures { ReplayRight s.now loaded calls.now result }
{
    let start = Monitor::load(s, loaded);
    let checked = start.checked;
    let b = start.monitor;
    let mut answer = Answer::Nothing;
    if checked.is_err() {
        return Replayed {
            checked,
            monitor: b,
            answer,
        };
    }
    let size = b.size;
    let sheet: &[u8] = &b.bytes;
    let live: &[u8] = &b.live;
    let mut q = b.state;
    for k in 0..calls.len() / 5 {
        let r = call_at(&sheet[..size], live, q, calls, 5 * k);
        q = r.state;
        answer = r.answer;
    }
    Replayed {
        checked,
        monitor: b.with_state(q),
        answer,
    }
}
