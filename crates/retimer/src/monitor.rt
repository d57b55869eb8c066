// The box and its calls.
ghost use Rattle.std.specs.Prelude.{◌≡◌, cond};
ghost use Rattle.enforcement.specs.Loading.{Loads};
ghost use Rattle.enforcement.specs.History.{offer, collect, lamp};
ghost use Rattle.retimer.specs.declared.state.Answer.TheVariants.{Lit, Dark};
ghost use Rattle.retimer.specs.View.{Valid};
ghost use Rattle.retimer.specs.Calls.{with_state, CallRight, FreshRight, no_monitor, LoadRight};

use crate::limits::{Monitor, State};
use crate::reason::Reason;
use crate::sheet::Counts;
use crate::state::Answer;
use crate::{lists, liveness, outlook, sheet};

#[derive(Clone, Copy)]
pub struct Answered {
    pub monitor: Monitor,
    pub answer: Answer,
}

// The check's answer, with a box beside it. After a refusal `Monitor::nothing` stands in the box's place, as `LoadRight.no_box` and `ReplayRight.no_box` promise.
#[derive(Clone, Copy)]
pub struct Loaded {
    pub monitor: Monitor,
    pub checked: Result<Counts, Reason>,
}

impl Monitor {
    // A fresh box of a sheet that the check accepts at that date: its clocks read 0 there.
    fn fresh(s: &[u8], loaded: u32) -> Monitor
        requires { Loads s.now loaded }
        ensures { FreshRight s.now loaded result }
    {
        let live = liveness::live_table(s);
        let counts = live.counts;
        let bytes = lists::copied(s);
        // Of a clock that the sheet lacks the reading is saturated, as `Standing.one_clock` asks.
        let second = if s[1] == 1 { Monitor::TOP } else { 0 };
        let location = s[3];
        let lit = outlook::none_next(s, &counts, location, [0, second]);
        Monitor {
            bytes,
            size: s.len(),
            live: counts,
            state: State::initial(loaded, location, [0, second], lit),
        }
    }

    // What stands in the box's place after a refused load: no sheet, zeros throughout, and a dark lamp.
    fn nothing() -> Monitor
        ensures { result ≡ no_monitor }
    {
        Monitor {
            bytes: [0u8; Monitor::SIZE],
            size: 0,
            live: [0u8; Monitor::COUNTS],
            state: State::initial(0, 0, [0, 0], false),
        }
    }

    // Any bytes and any date: the check's answer, and a fresh box where it accepts them; else no box.
    pub fn load(s: &[u8], loaded: u32) -> Loaded
        ensures { LoadRight s.now loaded result }
    {
        let checked = sheet::check(s, loaded);
        match checked {
            Ok(_) => Loaded {
                monitor: Monitor::fresh(s, loaded),
                checked,
            },
            Err(_) => Loaded {
                monitor: Monitor::nothing(),
                checked,
            },
        }
    }

    // The box with another state.
    pub fn with_state(mut self, state: State) -> Monitor
        ensures { result ≡ with_state self state }
    {
        self.state = state;
        self
    }

    // An action at a date.
    pub fn offer(self, c: u8, t: u32) -> Answered
        requires { Valid self }
        ensures { CallRight self (offer c t) result }
    {
        let size = self.size;
        let state = self.state;
        let s: &[u8] = &self.bytes;
        let live: &[u8] = &self.live;
        let moved = state.offer(&s[..size], live, c, t);
        let after = moved.state;
        let answer = moved.answer;
        Answered {
            monitor: self.with_state(after),
            answer,
        }
    }

    // The oldest scheduled event, if its date has come.
    pub fn collect(self, t: u32) -> Answered
        requires { Valid self }
        ensures { CallRight self (collect t) result }
    {
        let size = self.size;
        let state = self.state;
        let s: &[u8] = &self.bytes;
        let live: &[u8] = &self.live;
        let moved = state.collect(&s[..size], live, t);
        let after = moved.state;
        let answer = moved.answer;
        Answered {
            monitor: self.with_state(after),
            answer,
        }
    }

    // The lamp as it is stored. Of a box it says whether no run of further actions could get one more scheduled.
    pub fn lamp(self) -> Answered
        ensures { (result ≡ record { monitor = self; answer = cond self.state.lit Lit Dark }) × (Valid self → CallRight self lamp result) }
    {
        if self.state.lit {
            return Answered {
                monitor: self,
                answer: Answer::Lit,
            };
        }
        Answered {
            monitor: self,
            answer: Answer::Dark,
        }
    }
}
