// What a single action comes to, and whether any next action can lead to a live configuration, by the waits at which transitions are enabled.
ghost use Rattle.std.specs.Prelude.{◌≡◌, true, [], ◌∷◌, ◌↔◌, ◌+◌, ◌≤◌, length};
ghost use Rattle.enforcement.specs.Automaton.{byte, accepting, actions, transition_at};
ghost use Rattle.enforcement.specs.Loading.{WellFormed, Fits};
ghost use Rattle.enforcement.specs.Model.{prospect, compile};
ghost use Rattle.enforcement.specs.Monitor.{none_next, is_lit};
ghost use Rattle.retimer.specs.Readings.{Readings, located};
ghost use Rattle.retimer.specs.Optimum.{LampAsked};
ghost use Rattle.retimer.specs.Outlook.{outlook_of};
ghost use Rattle.retimer.specs.Next.{Opens, LeadsLive, LeadsAsked};

use crate::{bytes, clocks, liveness, waits};

// What a list of actions comes to. Where it is dead: whether the lamp is lit with the actions without the last.
#[derive(Clone, Copy)]
pub enum Outlook {
    Correct,
    Extensible,
    Dead { lit: bool },
}

// Whether the transition at p is for the action, and enabled after some wait.
fn opens(s: &[u8], c: u8, p: usize, r: [u8; 2]) -> bool
    requires { (p + 7 ≤ length s.now) × (Readings r) }
    ensures { (result ≡ true) ↔ Opens c r (transition_at s.now p) }
{
    s[p] == c && waits::first_wait(s, p, r[0], r[1]) < waits::end_wait(s, p, r[0], r[1])
}

// Whether the transition at p, after some wait at which it is enabled, leads to a live configuration.
fn leads_live(s: &[u8], live: &[u8], p: usize, r: [u8; 2]) -> bool
    requires { LeadsAsked s.now live.now p r }
    ensures { (result ≡ true) ↔ LeadsLive s.now r (transition_at s.now p) }
{
    let target = s[p + 1];
    let set = s[p + 2];
    let first = waits::first_wait(s, p, r[0], r[1]);
    let end = waits::end_wait(s, p, r[0], r[1]);
    for u in first..end {
        let q = clocks::reset(clocks::wait_many(r, u32::from(u)), set);
        if liveness::is_live(s, live, target, q) {
            return true;
        }
    }
    false
}

// Whether the transition at p leads to an accepting location.
fn target_accepts(s: &[u8], p: usize) -> bool
    requires { (WellFormed s.now) × ((p + 7 ≤ length s.now) × (Fits s.now (transition_at s.now p))) }
    ensures { result ≡ accepting s.now (byte s.now (p + 1)) }
{
    liveness::accepts(s, usize::from(s[p + 1]))
}

// What a single action comes to and, where it is dead, the lamp without it.
pub fn single<'a>(s: &'a [u8], live: &'a [u8], c: u8, l: u8, r: [u8; 2]) -> Outlook
    requires { LampAsked s.now live.now l r }
    ensures { result ≡ outlook_of (prospect (compile s.now) (c ∷ []) (located l r)) (is_lit (compile s.now) (located l r) []) }
{
    let pair = 6 + 4 * usize::from(l);
    let start = bytes::word_at(s, pair);
    let end = start + bytes::word_at(s, pair + 2);
    let mut lives = false;
    for p in (start..end).step_by(7) {
        if opens(s, c, p, r) {
            if target_accepts(s, p) {
                return Outlook::Correct;
            }
            if leads_live(s, live, p, r) {
                lives = true;
            }
        }
    }
    if lives {
        return Outlook::Extensible;
    }
    Outlook::Dead {
        lit: none_next(s, live, l, r),
    }
}

// None of the actions can come next: none leads to a live configuration.
pub fn none_next<'a>(s: &'a [u8], live: &'a [u8], l: u8, r: [u8; 2]) -> bool
    requires { LampAsked s.now live.now l r }
    ensures { result ≡ none_next (compile s.now) (located l r) (actions s.now) }
{
    let pair = 6 + 4 * usize::from(l);
    let start = bytes::word_at(s, pair);
    let end = start + bytes::word_at(s, pair + 2);
    for p in (start..end).step_by(7) {
        if leads_live(s, live, p, r) {
            return false;
        }
    }
    true
}
