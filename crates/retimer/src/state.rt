// The calls on a box's state, with its automaton's bytes and its table of live configurations lent. None takes a slice of the state, which would cost a copy of all of it.
ghost use Rattle.std.specs.Prelude.{◌≡◌, false, ◌+◌, ◌-◌, ◌≤◌, ◌<◌, max, leb, length};
ghost use Rattle.enforcement.specs.Limits.{max_count, max_scheduled, max_date, max_numbered};
ghost use Rattle.enforcement.specs.History.{actions_of, offer, collect};
ghost use Rattle.enforcement.specs.Model.{compile};
ghost use Rattle.enforcement.specs.Monitor.{joins, kept, oldest};
ghost use Rattle.retimer.specs.View.{view, StateSound, StateValid};
ghost use Rattle.retimer.specs.Calls.{initial_state, refusal, dropping, lamp_with, lamp_at, Done, last_action, decided_of, CorrectAsked, PlaceAsked, placed_of, MoveRight};

use crate::limits::{Monitor, Request, Slot, State};
use crate::outlook::Outlook;
use crate::reason::Reason;
use crate::{clocks, lamp, lists, optimum, outlook, reach};

// What a call answers, by the cases of document 01's outcomes, which `outcome_of` reads.
#[derive(Clone, Copy)]
pub enum Answer {
    Scheduled { count: u8, last: u32 },
    Held(u8),
    Dropped,
    Played(Slot),
    Nothing,
    Lit,
    Dark,
    Refused(Reason),
}

// The state after a call, and the call's answer.
#[derive(Clone, Copy)]
pub struct Moved {
    pub state: State,
    pub answer: Answer,
}

// The first date at which an action offered at t can be played, after the last scheduled one.
fn earliest(last: u32, t: u32) -> u32
    ensures { result ≡ max t last }
{
    t.max(last)
}

// An offer with the next number.
fn next_request(numbered: u32, action: u8, offered: u32) -> Request
    requires { numbered < max_numbered }
    ensures { result ≡ record { action = action; number = numbered + 1; offered = offered } }
{
    Request {
        action,
        number: numbered + 1,
        offered,
    }
}

impl State {
    // At a date, which counts as the last scheduled one, with nothing pending, scheduled or numbered.
    pub fn initial(date: u32, location: u8, readings: [u8; 2], lit: bool) -> State
        ensures { result ≡ initial_state date location readings lit }
    {
        State {
            date,
            pending: [Request {
                action: 0,
                number: 0,
                offered: 0,
            }; Monitor::COUNT],
            held: 0,
            schedule: [Slot {
                request: Request {
                    action: 0,
                    number: 0,
                    offered: 0,
                },
                date: 0,
            }; Monitor::SCHEDULED],
            planned: 0,
            location,
            readings,
            last: date,
            numbered: 0,
            lit,
        }
    }

    // The state as it came, with the reason.
    fn refuse(self, reason: Reason) -> Moved
        ensures { result ≡ refusal self reason }
    {
        Moved {
            state: self,
            answer: Answer::Refused(reason),
        }
    }

    // An action at a date. Where the lamp is lit, it stays lit, and every offer that can be numbered is dropped.
    pub fn offer<'a>(self, s: &'a [u8], live: &'a [u8], c: u8, t: u32) -> Moved
        requires { StateValid s.now live.now self }
        ensures { MoveRight s.now live.now self (offer c t) result }
    {
        if s[2] <= c {
            return self.refuse(Reason::I7);
        }
        if Monitor::LATEST < t {
            return self.refuse(Reason::I8);
        }
        if t < self.date {
            return self.refuse(Reason::S1);
        }
        if Monitor::NUMBERED <= self.numbered {
            return self.refuse(Reason::S5);
        }
        if self.lit {
            return self.drop_at(t, true);
        }
        self.decide(s, live, c, t)
    }

    // An offer that passed the first checks.
    fn decide<'a>(self, s: &'a [u8], live: &'a [u8], c: u8, t: u32) -> Moved
        requires { (StateSound s.now live.now self) × ((t ≤ max_date) × (self.numbered < max_numbered)) }
        ensures { Done s.now live.now self (decided_of s.now self c t) result }
    {
        let held = self.held;
        let last = self.last;
        let location = self.location;
        let readings = self.readings;
        let pending = self.pending;
        let start = earliest(last, t);
        let here = clocks::wait_many(readings, start - last);
        let mut cs = lists::actions(pending, held);
        cs[held] = c;
        let o = reach::outlook_of(s, live, &cs[..held + 1], location, here);
        match o {
            Outlook::Correct => self.correct(s, live, t, cs, start, here),
            Outlook::Extensible => self.hold(s, live, c, t),
            Outlook::Dead { lit } => self.drop_at(t, lit),
        }
    }

    // Case 3: only the date and the lamp move, and the offer has its number.
    fn drop_at(mut self, t: u32, lit: bool) -> Moved
        requires { self.numbered < max_numbered }
        ensures { result ≡ dropping self t lit }
    {
        self.date = t;
        self.numbered += 1;
        self.lit = lit;
        Moved {
            state: self,
            answer: Answer::Dropped,
        }
    }

    // Case 2: one more action is pending, where there is room. What is held can still come to acceptance, so the lamp is dark.
    fn hold<'a>(mut self, s: &'a [u8], live: &'a [u8], c: u8, t: u32) -> Moved
        requires { ((StateSound s.now live.now self) × ((t ≤ max_date) × (self.numbered < max_numbered))) × (lamp_with s.now self t (actions_of (joins (view self) c t)) ≡ false) }
        ensures { Done s.now live.now self (kept (compile s.now) (view self) c t (leb max_count (length (view self).pending))) result }
    {
        let n = self.held;
        if Monitor::COUNT <= n {
            return self.refuse(Reason::S4);
        }
        let next = next_request(self.numbered, c, t);
        self.pending[n] = next;
        self.held = n + 1;
        self.date = t;
        self.numbered = next.number;
        self.lit = false;
        Moved {
            state: self,
            answer: Answer::Held((n + 1) as u8),
        }
    }

    // Case 1: there is a correction. Without room, and so far from the last date that it can't be passed, its dates need not be known.
    fn correct<'a>(
        self,
        s: &'a [u8],
        live: &'a [u8],
        t: u32,
        cs: [u8; Monitor::BATCH],
        start: u32,
        here: [u8; 2],
    ) -> Moved
        requires { CorrectAsked s.now live.now self t cs start here }
        ensures { Done s.now live.now self (decided_of s.now self (last_action self cs) t) result }
    {
        if Monitor::SCHEDULED - self.planned < self.held + 1
            && start <= Monitor::LATEST - Monitor::LONGEST
        {
            return self.refuse(Reason::S3);
        }
        self.date_and_place(s, live, t, cs, start, here)
    }

    // Works out the first correction.
    fn date_and_place<'a>(
        self,
        s: &'a [u8],
        live: &'a [u8],
        t: u32,
        cs: [u8; Monitor::BATCH],
        start: u32,
        here: [u8; 2],
    ) -> Moved
        requires { CorrectAsked s.now live.now self t cs start here }
        ensures { Done s.now live.now self (decided_of s.now self (last_action self cs) t) result }
    {
        let held = self.held;
        let location = self.location;
        let mut ds = [0u32; Monitor::BATCH];
        let list: &[u8] = &cs;
        let p = optimum::plan(s, &list[..held + 1], location, here, start, &mut ds);
        let there = p.readings;
        self.place(
            s,
            live,
            t,
            cs,
            ds,
            start + p.value as u32,
            p.location,
            there,
        )
    }

    // The pending actions and one more get their dates, where they end in time and there is room.
    fn place<'a>(
        self,
        s: &'a [u8],
        live: &'a [u8],
        t: u32,
        cs: [u8; Monitor::BATCH],
        ds: [u32; Monitor::BATCH],
        last: u32,
        location: u8,
        readings: [u8; 2],
    ) -> Moved
        requires { PlaceAsked s.now live.now self t cs ds last location readings }
        ensures { Done s.now live.now self (placed_of s.now self t cs ds last) result }
    {
        let n = self.planned;
        let k = self.held + 1;
        if Monitor::LATEST < last {
            return self.refuse(Reason::S2);
        }
        if Monitor::SCHEDULED - n < k {
            return self.refuse(Reason::S3);
        }
        self.schedule_all(s, live, t, cs, ds, last, location, readings)
    }

    // They are scheduled. None is pending then: the lamp looks at single next actions from where they end.
    fn schedule_all<'a>(
        mut self,
        s: &'a [u8],
        live: &'a [u8],
        t: u32,
        cs: [u8; Monitor::BATCH],
        ds: [u32; Monitor::BATCH],
        last: u32,
        location: u8,
        readings: [u8; 2],
    ) -> Moved
        requires { (PlaceAsked s.now live.now self t cs ds last location readings) × ((last ≤ max_date) × (self.held + 1 ≤ max_scheduled - self.planned)) }
        ensures { Done s.now live.now self (placed_of s.now self t cs ds last) result }
    {
        let n = self.planned;
        let held = self.held;
        let pending = self.pending;
        let slots = self.schedule;
        let next = next_request(self.numbered, cs[held], t);
        let more = lists::with_slots(slots, n, pending, held, next, ds);
        let lit = outlook::none_next(s, live, location, readings);
        self.schedule = more;
        self.planned = n + (held + 1);
        self.held = 0;
        self.date = t;
        self.location = location;
        self.readings = readings;
        self.last = last;
        self.numbered = next.number;
        self.lit = lit;
        Moved {
            state: self,
            answer: Answer::Scheduled {
                count: (held + 1) as u8,
                last,
            },
        }
    }

    // The oldest scheduled event, if its date has come.
    pub fn collect<'a>(self, s: &'a [u8], live: &'a [u8], t: u32) -> Moved
        requires { StateValid s.now live.now self }
        ensures { MoveRight s.now live.now self (collect t) result }
    {
        if Monitor::LATEST < t {
            return self.refuse(Reason::I8);
        }
        if t < self.date {
            return self.refuse(Reason::S1);
        }
        self.play(s, live, t)
    }

    // Whether the lamp is lit at a later date. A lit lamp stays lit, and a dark one stays dark where the first date at which an action can be played is the same.
    fn lit_at<'a>(self, s: &'a [u8], live: &'a [u8], t: u32) -> bool
        requires { (StateValid s.now live.now self) × ((self.date ≤ t) × (t ≤ max_date)) }
        ensures { result ≡ lamp_at s.now self t }
    {
        if self.lit {
            return true;
        }
        let last = self.last;
        let date = self.date;
        let start = earliest(last, t);
        if start == earliest(last, date) {
            return false;
        }
        let held = self.held;
        let location = self.location;
        let readings = self.readings;
        let here = clocks::wait_many(readings, start - last);
        let pending = self.pending;
        let cs = lists::actions(pending, held);
        lamp::is_lit(s, live, &cs[..held], location, here)
    }

    // A collection that passed the first checks.
    fn play<'a>(mut self, s: &'a [u8], live: &'a [u8], t: u32) -> Moved
        requires { (StateValid s.now live.now self) × ((self.date ≤ t) × (t ≤ max_date)) }
        ensures { Done s.now live.now self (oldest (compile s.now) (view self) t (view self).schedule) result }
    {
        let lit = self.lit_at(s, live, t);
        let n = self.planned;
        let slots = self.schedule;
        let first = slots[0];
        self.date = t;
        self.lit = lit;
        if n == 0 {
            return Moved {
                state: self,
                answer: Answer::Nothing,
            };
        }
        if t < first.date {
            return Moved {
                state: self,
                answer: Answer::Nothing,
            };
        }
        let rest = lists::without_first(slots, n);
        self.schedule = rest;
        self.planned = n - 1;
        Moved {
            state: self,
            answer: Answer::Played(first),
        }
    }
}
