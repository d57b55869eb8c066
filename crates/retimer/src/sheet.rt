// The check of a sheet and its loading date: one test for each reason, in order.
ghost use Rattle.std.specs.Prelude.{◌≡◌, ◌&&◌, ◌+◌, ◌*◌, ◌≤◌, leb, length};
ghost use Rattle.enforcement.specs.Limits.{max_date};
ghost use Rattle.enforcement.specs.Automaton.{transition_at, transitions_from, all_transitions, locations};
ghost use Rattle.enforcement.specs.Loading.{size_passes, header_passes, initial_passes, pairs_pass, layout_passes, bounds_pass, one_clock_passes, fits, all_fit, overlap, overlaps_none, disjoint, disjoint_over, check, counts_of};
ghost use Rattle.retimer.specs.Checked.{Headed, LaidOut, names_pass, guards_pass, clocks_pass, figures_of, checked_of};

use crate::bytes;
use crate::limits::Monitor;
use crate::reason::Reason;

// The figures of the desk program's first line.
#[derive(Clone, Copy)]
pub struct Counts {
    pub locations: u8,
    pub clocks: u8,
    pub actions: u8,
    pub transitions: usize,
    pub accepting: u32,
}

// I-1: the number of bytes.
#[tactic(auto, unfolding(enforcement::specs::Loading::size_passes))]
fn size_passes(s: &[u8]) -> bool
    ensures { result ≡ size_passes s.now }
{
    6 <= s.len() && s.len() <= Monitor::SIZE
}

// Whether a count lies from 1 to the largest.
fn is_count(x: u8, most: usize) -> bool
    ensures { result ≡ leb 1 x && leb x most }
{
    1 <= x && usize::from(x) <= most
}

// I-2: locations, clocks and actions.
#[tactic(auto, unfolding(enforcement::specs::Loading::header_passes))]
fn header_passes(s: &[u8]) -> bool
    requires { 6 ≤ length s.now }
    ensures { result ≡ header_passes s.now }
{
    is_count(s[0], Monitor::COUNT) && is_count(s[1], 2) && is_count(s[2], Monitor::COUNT)
}

// I-3: the initial location, and no accepting bit beyond the locations.
#[tactic(auto, using(crate::proofs::SheetLaws::shifted), unfolding(enforcement::specs::Loading::initial_passes))]
fn initial_passes(s: &[u8]) -> bool
    requires { Headed s.now }
    ensures { result ≡ initial_passes s.now }
{
    s[3] < s[0] && bytes::word_at(s, 4) < 1 << usize::from(s[0])
}

// Where the transitions begin, after the header and the pairs.
fn first_place(s: &[u8]) -> usize
    requires { 6 ≤ length s.now }
    ensures { result ≡ 6 + 4 * locations s.now }
{
    6 + 4 * usize::from(s[0])
}

// Each pair begins where the one before it ends, and holds whole transitions; the last ends the sheet.
fn pairs_pass(s: &[u8]) -> bool
    requires { (Headed s.now) × (6 + 4 * locations s.now ≤ length s.now) }
    ensures { result ≡ pairs_pass s.now (locations s.now) 0 (6 + 4 * locations s.now) }
{
    let count = usize::from(s[0]);
    let mut end = first_place(s);
    for l in 0..count {
        if bytes::word_at(s, 6 + 4 * l) != end {
            return false;
        }
        let size = bytes::word_at(s, 8 + 4 * l);
        if size % 7 != 0 {
            return false;
        }
        end += size;
    }
    end == s.len()
}

// How many transitions there are, where the layout is right.
#[tactic(auto, using(enforcement::proofs::Pairs::layout_total))]
fn transition_count(s: &[u8]) -> usize
    requires { LaidOut s.now }
    ensures { result ≡ length (all_transitions s.now) }
{
    (s.len() - first_place(s)) / 7
}

// I-4: the pairs are there and in place, and there are not too many transitions.
#[tactic(auto, using(crate::proofs::SheetLaws::laid_out), unfolding(enforcement::specs::Loading::layout_passes))]
fn layout_passes(s: &[u8]) -> bool
    requires { Headed s.now }
    ensures { result ≡ layout_passes s.now }
{
    first_place(s) <= s.len() && pairs_pass(s) && transition_count(s) <= Monitor::TRANSITIONS
}

// A low of 0 to the largest bound, a high of the same or 255, the sheet's byte for none, in order.
fn bounds_pass(low: u8, high: u8) -> bool
    ensures { result ≡ bounds_pass low high }
{
    low <= Monitor::BOUND && (high == 255 || high <= Monitor::BOUND && low <= high)
}

// With one clock, clock 2 has no bounds and is not reset.
fn one_clock_passes(s: &[u8], p: usize) -> bool
    requires { p + 7 ≤ length s.now }
    ensures { result ≡ one_clock_passes (transition_at s.now p) }
{
    s[p + 5] == 0 && s[p + 6] == 255 && s[p + 2] / 2 % 2 != 1
}

// Nothing is asked of clock 2 where there are two clocks.
fn clocks_pass(s: &[u8], p: usize) -> bool
    requires { (6 ≤ length s.now) × (p + 7 ≤ length s.now) }
    ensures { result ≡ clocks_pass s.now (transition_at s.now p) }
{
    s[1] != 1 || one_clock_passes(s, p)
}

// The action, the target and the reset set are in range.
fn names_pass(s: &[u8], p: usize) -> bool
    requires { (6 ≤ length s.now) × (p + 7 ≤ length s.now) }
    ensures { result ≡ names_pass s.now (transition_at s.now p) }
{
    s[p] < s[2] && s[p + 1] < s[0] && s[p + 2] <= 3
}

// The bounds of both clocks.
fn guards_pass(s: &[u8], p: usize) -> bool
    requires { p + 7 ≤ length s.now }
    ensures { result ≡ guards_pass (transition_at s.now p) }
{
    bounds_pass(s[p + 3], s[p + 4]) && bounds_pass(s[p + 5], s[p + 6])
}

// The fields of the transition at a place are in range.
#[tactic(auto, unfolding(enforcement::specs::Loading::fits_up_to))]
fn fits(s: &[u8], p: usize) -> bool
    requires { (6 ≤ length s.now) × (p + 7 ≤ length s.now) }
    ensures { result ≡ fits s.now (transition_at s.now p) }
{
    names_pass(s, p) && guards_pass(s, p) && clocks_pass(s, p)
}

// I-5: the fields of every transition.
fn all_fit(s: &[u8]) -> bool
    requires { LaidOut s.now }
    ensures { result ≡ all_fit s.now (all_transitions s.now) }
{
    let first = first_place(s);
    let n = transition_count(s);
    for k in 0..n {
        if !fits(s, first + 7 * k) {
            return false;
        }
    }
    true
}

// Some number lies both from low to high and from `from` to `to`, where both are in order.
fn meet(low: u8, high: u8, from: u8, to: u8) -> bool
    ensures { result ≡ leb low to && leb from high }
{
    low <= to && from <= high
}

// The transitions at two places have one action, and some readings satisfy both.
#[tactic(auto, unfolding(enforcement::specs::Loading::overlap))]
fn overlap(s: &[u8], p: usize, q: usize) -> bool
    requires { (p + 7 ≤ length s.now) × (q + 7 ≤ length s.now) }
    ensures { result ≡ overlap (transition_at s.now p) (transition_at s.now q) }
{
    s[p] == s[q]
        && meet(s[p + 3], s[p + 4], s[q + 3], s[q + 4])
        && meet(s[p + 5], s[p + 6], s[q + 5], s[q + 6])
}

// The transition at p overlaps none of the n after it.
fn overlaps_none(s: &[u8], p: usize, n: usize) -> bool
    requires { p + 7 + 7 * n ≤ length s.now }
    ensures { result ≡ overlaps_none (transition_at s.now p) (transitions_from s.now n (p + 7)) }
{
    let first = p + 7;
    for k in 0..n {
        if overlap(s, p, first + 7 * k) {
            return false;
        }
    }
    true
}

// No two of the n transitions from first on overlap.
fn disjoint(s: &[u8], first: usize, n: usize) -> bool
    requires { first + 7 * n ≤ length s.now }
    ensures { result ≡ disjoint (transitions_from s.now n first) }
{
    for k in 0..n {
        if !overlaps_none(s, first + 7 * k, n - (k + 1)) {
            return false;
        }
    }
    true
}

// I-6: no two transitions of one location overlap.
fn disjoint_over(s: &[u8]) -> bool
    requires { LaidOut s.now }
    ensures { result ≡ disjoint_over s.now (locations s.now) 0 }
{
    let count = usize::from(s[0]);
    for l in 0..count {
        let first = bytes::word_at(s, 6 + 4 * l);
        let n = bytes::word_at(s, 8 + 4 * l) / 7;
        if !disjoint(s, first, n) {
            return false;
        }
    }
    true
}

// The figures of a sheet that passed.
fn figures(s: &[u8]) -> Counts
    requires { LaidOut s.now }
    ensures { figures_of result ≡ counts_of s.now }
{
    Counts {
        locations: s[0],
        clocks: s[1],
        actions: s[2],
        transitions: transition_count(s),
        accepting: u16::count_ones(bytes::word_at(s, 4) as u16),
    }
}

// I-8: the loading date.
fn date_passes(loaded: u32) -> bool
    ensures { result ≡ leb loaded max_date }
{
    loaded <= Monitor::LATEST
}

// The counts, or the first reason to refuse the sheet at that date.
#[tactic(auto, using(crate::proofs::SheetLaws::size_fits, crate::proofs::SheetLaws::headed, crate::proofs::SheetLaws::layout_passed), unfolding(enforcement::specs::Loading::check_up_to))]
pub fn check(s: &[u8], loaded: u32) -> Result<Counts, Reason>
    ensures { checked_of result ≡ check s.now loaded }
{
    if !size_passes(s) {
        return Err(Reason::I1);
    }
    if !header_passes(s) {
        return Err(Reason::I2);
    }
    if !initial_passes(s) {
        return Err(Reason::I3);
    }
    if !layout_passes(s) {
        return Err(Reason::I4);
    }
    if !all_fit(s) {
        return Err(Reason::I5);
    }
    if !disjoint_over(s) {
        return Err(Reason::I6);
    }
    if !date_passes(loaded) {
        return Err(Reason::I8);
    }
    Ok(figures(s))
}
