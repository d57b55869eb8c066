// The costs before each action of a list but the first, from the last action back, of all configurations at the locations that the actions before it can enter. Those right after a reset are noted in the memos.
ghost use Rattle.std.specs.Prelude.{◌≡◌, cond, [], ℕ, ◌+◌, ◌*◌, ◌≤◌, ◌<◌, min, length, get_or, drop, set};
ghost use Rattle.enforcement.specs.Limits.{max_count};
ghost use Rattle.enforcement.specs.Automaton.{locations, clocks, transition_at};
ghost use Rattle.enforcement.specs.Loading.{WellFormed, Fits};
ghost use Rattle.enforcement.specs.Model.{top, width};
ghost use Rattle.retimer.specs.Costs.{never, Ground};
ghost use Rattle.retimer.specs.Locations.{InSheet};
ghost use Rattle.retimer.specs.Targets.{Enters, EntersFrom, EntersFromAny};
ghost use Rattle.retimer.specs.Layers.{cell_of, tick, RowAsked, RowTicked, half, Stretch, Chosen, ChosenFrom, RowsTicked, AllTicked, LineAsked, RowLowered, BoxLowered, Now, Laying, Ready, Cleared, Took, Laid, LocationWritten, AllWritten, AllLaid, OneLaid, Noting, Full, NotedFrom, Ended, LayersOf, Filled};

use crate::limits::Monitor;
use crate::{bytes, clocks, costs, locations, targets};

// A table has the costs of as many locations. Those of an action stand in two tables, low and high: one of both sizes would not fit a frame of 32 KB.
const HALF: usize = Monitor::COUNT / 2;

const AREA: usize = Monitor::WIDTH * Monitor::WIDTH;

const SIZE: usize = HALF * AREA;

// The place of a location of a table with its readings.
fn cell(m: usize, x: usize, y: usize) -> usize
    requires { (m < half) × ((x ≤ top) × (y ≤ top)) }
    ensures { result ≡ cell_of m x y }
{
    (m * Monitor::WIDTH + y) * Monitor::WIDTH + x
}

// The lesser of a cost and the one at a place, there.
fn lower(table: &mut [u16], i: usize, v: u16)
    requires { i < length table.old }
    ensures { table.new ≡ set table.old i (min v (get_or table.old i 0)) }
{
    table[i] = v.min(table[i]);
}

// The last row of a location, which is its own row a tick later: from its end on.
fn tick_last(table: &mut [u16], here: usize)
    requires { RowAsked here table.old }
    ensures { RowTicked here here table.old table.new }
{
    for x in (0..Monitor::WIDTH - 1).rev() {
        let v = table[here + (x + 1)] + 1;
        lower(table, here + x, v);
    }
}

// Any other row, by the row after it, which is done.
fn tick_row(table: &mut [u16], here: usize)
    requires { RowAsked (here + width) table.old }
    ensures { RowTicked here (here + width) table.old table.new }
{
    let above = here + Monitor::WIDTH;
    let last = Monitor::WIDTH - 1;
    for x in 0..last {
        let v = table[above + (x + 1)] + 1;
        lower(table, here + x, v);
    }
    let v = table[above + last] + 1;
    lower(table, here + last, v);
}

// The row y of a location.
fn tick_at(table: &mut [u16], m: usize, y: usize)
    requires { (Ready m table.old) × (y ≤ top) }
    ensures { RowTicked (cell_of m 0 y) (cell_of m 0 (tick y)) table.old table.new }
{
    let here = cell(m, 0, y);
    if y + 1 < Monitor::WIDTH {
        tick_row(table, here);
        return;
    }
    tick_last(table, here);
}

// The row y of each location that is chosen.
fn tick_rows(table: &mut [u16], h: usize, n: usize, places: u16, y: usize)
    requires { ((Ready 0 table.old) × (y ≤ top)) × (Stretch max_count h n) }
    ensures { RowsTicked (Chosen h n places) y table.old table.new }
{
    for m in 0..n {
        if locations::has(places, h + m) {
            tick_at(table, m, y);
        }
    }
}

// All rows of the locations that are chosen. A row is done for all of them before the row that reads it: one that was just written is slow to read.
fn ticks(table: &mut [u16], h: usize, n: usize, places: u16)
    requires { (Ready 0 table.old) × (Stretch max_count h n) }
    ensures { AllTicked (Chosen h n places) table.old table.new }
{
    for y in (0..Monitor::WIDTH).rev() {
        tick_rows(table, h, n, places, y);
    }
}

// The columns x up to end of one row: the lesser of each cost and of another.
fn lower_by<F: Fn(usize) -> u16>(other: F, table: &mut [u16], to: usize, x: usize, end: usize)
    requires { (LineAsked to end table.old) × ((i : ℕ) → i < end → F.pre other i) }
    ensures { (f : ℕ → ℕ) → ((i v : ℕ) → F.post other i v → v ≡ f i) → RowLowered f to x end table.old table.new }
{
    for i in x..end {
        lower(table, to + i, other(i));
    }
}

// The same with another table's row, or with its first column where the first clock is reset. The choice stands outside the loop: tried inside, a short row takes a third more instructions.
fn lower_row(
    other: &[u16],
    from: usize,
    spread: bool,
    table: &mut [u16],
    to: usize,
    x: usize,
    end: usize,
)
    requires { (LineAsked to end table.old) × (LineAsked from end other.now) }
    ensures { RowLowered (λ i. get_or other.now (cond spread from (from + i)) 0) to x end table.old table.new }
{
    if spread {
        let v = other[from];
        lower_by(|_| v, table, to, x, end);
        return;
    }
    lower_by(|i| other[from + i], table, to, x, end);
}

// The costs of a location, where the transition at p is enabled: the lesser of each and of that in another table, to which it leads.
fn lower_box(s: &[u8], p: usize, other: &[u16], t: usize, table: &mut [u16], m: usize)
    requires { ((p + 7 ≤ length s.now) × (Fits s.now (transition_at s.now p))) × (((t < half) × (length other.now ≡ half * (width * width))) × ((m < half) × (length table.old ≡ half * (width * width)))) }
    ensures { BoxLowered (transition_at s.now p) other.now t m table.old table.new }
{
    let set = s[p + 2];
    let x = usize::from(s[p + 3]);
    let end = clocks::past(s[p + 4]);
    let first = usize::from(s[p + 5]);
    let last = clocks::past(s[p + 6]);
    for y in first..last {
        let row = clocks::row_after(set / 2 % 2, y);
        lower_row(
            other,
            cell(t, 0, row),
            set % 2 == 1,
            table,
            cell(m, 0, y),
            x,
            end,
        );
    }
}

// The transition at p, if it is for the action k.
fn rule(
    s: &[u8],
    cs: &[u8],
    k: usize,
    p: usize,
    low: &[u16],
    high: &[u16],
    table: &mut [u16],
    m: usize,
)
    requires { (Laying s.now cs.now k (λ (n : ℕ). Enters (get_or cs.now k 0) n (transition_at s.now p)) low.now high.now) × (((p + 7 ≤ length s.now) × (Fits s.now (transition_at s.now p))) × (Ready m table.old)) }
    ensures { Took (λ x y w. Now s.now (get_or cs.now k 0) (drop (k + 1) cs.now) w x y (transition_at s.now p)) m table.old table.new }
{
    if s[p] != cs[k] {
        return;
    }
    let t = usize::from(s[p + 1]);
    if t < HALF {
        lower_box(s, p, low, t, table, m);
        return;
    }
    lower_box(s, p, high, t - HALF, table, m);
}

// The same cost everywhere at a location.
fn clear(table: &mut [u16], m: usize, c: u16)
    requires { (Ready m table.old) × (c ≤ never) }
    ensures { Cleared m c table.old table.new }
{
    let here = cell(m, 0, 0);
    table[here..here + AREA].fill(c);
}

// What the action k costs at once, without a tick, everywhere at a location.
fn write(
    s: &[u8],
    cs: &[u8],
    k: usize,
    l: usize,
    low: &[u16],
    high: &[u16],
    table: &mut [u16],
    m: usize,
)
    requires { (Laying s.now cs.now k (EntersFrom s.now (get_or cs.now k 0) l) low.now high.now) × ((l < locations s.now) × (Ready m table.old)) }
    ensures { LocationWritten s.now (get_or cs.now k 0) (drop (k + 1) cs.now) l m table.old table.new }
{
    clear(table, m, costs::NEVER);
    let pair = 6 + 4 * l;
    let first = bytes::word_at(s, pair);
    let end = first + bytes::word_at(s, pair + 2);
    for p in (first..end).step_by(7) {
        rule(s, cs, k, p, low, high, table, m);
    }
}

// The same for those of n locations from h on that are in a set.
fn write_all(
    s: &[u8],
    cs: &[u8],
    k: usize,
    h: usize,
    n: usize,
    places: u16,
    low: &[u16],
    high: &[u16],
    table: &mut [u16],
)
    requires { (Laying s.now cs.now k (EntersFromAny s.now (get_or cs.now k 0) places) low.now high.now) × ((Stretch (locations s.now) h n) × (Ready 0 table.old)) }
    ensures { AllWritten s.now (get_or cs.now k 0) (drop (k + 1) cs.now) h (Chosen h n places) table.old table.new }
{
    for m in 0..n {
        if locations::has(places, h + m) {
            write(s, cs, k, h + m, low, high, table, m);
        }
    }
}

// The costs of a location right after a reset before the action k, in the memos.
fn note(
    s: &[u8],
    cs: &[u8],
    k: usize,
    l: usize,
    table: &[u16],
    m: usize,
    first: &mut [u16],
    second: &mut [u16],
)
    requires { (((1 ≤ k) × (k < length cs.now)) × (l < locations s.now)) × (((Ready m table.now) × (Laid s.now (drop k cs.now) l m table.now)) × (Ground s.now cs.now first.old second.old)) }
    ensures { Noting s.now cs.now k (λ (i : ℕ). i ≡ l) first.old second.old first.new second.new }
{
    let base = costs::place(k, l as u8, 0);
    for z in 0..Monitor::WIDTH {
        let column = cell(m, 0, z);
        let row = cell(m, z, 0);
        first[base + z] = table[column] + 1;
        second[base + z] = table[row] + 1;
    }
}

// The same for those of n locations from h on that are in a set.
fn note_all(
    s: &[u8],
    cs: &[u8],
    k: usize,
    h: usize,
    n: usize,
    places: u16,
    table: &[u16],
    first: &mut [u16],
    second: &mut [u16],
)
    requires { (((1 ≤ k) × (k < length cs.now)) × (Stretch (locations s.now) h n)) × (((Ready 0 table.now) × (AllLaid s.now (drop k cs.now) h (Chosen h n places) table.now)) × (Ground s.now cs.now first.old second.old)) }
    ensures { Noting s.now cs.now k (ChosenFrom h n places) first.old second.old first.new second.new }
{
    for m in 0..n {
        if locations::has(places, h + m) {
            note(s, cs, k, h + m, table, m, first, second);
        }
    }
}

// The costs of those of n locations from h on that are in a set, from the action k on, in their table; those right after a reset in the memos.
fn lay_some(
    s: &[u8],
    cs: &[u8],
    k: usize,
    h: usize,
    n: usize,
    places: u16,
    low: &[u16],
    high: &[u16],
    table: &mut [u16],
    first: &mut [u16],
    second: &mut [u16],
)
    requires { ((Laying s.now cs.now k (EntersFromAny s.now (get_or cs.now k 0) places) low.now high.now) × ((1 ≤ k) × (Stretch (locations s.now) h n))) × ((Ready 0 table.old) × (Ground s.now cs.now first.old second.old)) }
    ensures { ((Ready 0 table.new) × (AllLaid s.now (drop k cs.now) h (Chosen h n places) table.new)) × (Noting s.now cs.now k (ChosenFrom h n places) first.old second.old first.new second.new) }
{
    write_all(s, cs, k, h, n, places, low, high, table);
    ticks(table, h, n, places);
    note_all(s, cs, k, h, n, places, table, first, second);
}

// The costs of all locations of a set, from the action k on.
fn lay_all(
    s: &[u8],
    cs: &[u8],
    k: usize,
    places: u16,
    low: &[u16],
    high: &[u16],
    newlow: &mut [u16],
    newhigh: &mut [u16],
    first: &mut [u16],
    second: &mut [u16],
)
    requires { ((Laying s.now cs.now k (EntersFromAny s.now (get_or cs.now k 0) places) low.now high.now) × ((1 ≤ k) × (InSheet s.now places))) × (((Ready 0 newlow.old) × (Ready 0 newhigh.old)) × ((Ground s.now cs.now first.old second.old) × (Full s.now cs.now (k + 1) (EntersFromAny s.now (get_or cs.now k 0) places) first.old second.old))) }
    ensures { LayersOf s.now cs.now k places newlow.new newhigh.new first.new second.new }
{
    let n = usize::from(s[0]);
    if n <= HALF {
        lay_some(s, cs, k, 0, n, places, low, high, newlow, first, second);
        return;
    }
    lay_some(s, cs, k, 0, HALF, places, low, high, newlow, first, second);
    lay_some(
        s,
        cs,
        k,
        HALF,
        n - HALF,
        places,
        low,
        high,
        newhigh,
        first,
        second,
    );
}

// The costs of a location where all is played, in its table.
fn end_one(s: &[u8], l: usize, low: &mut [u16], high: &mut [u16])
    requires { ((WellFormed s.now) × (l < locations s.now)) × ((Ready 0 low.old) × (Ready 0 high.old)) }
    ensures { OneLaid s.now [] l low.old high.old low.new high.new }
{
    let c = costs::ending(s, l as u8);
    if l < HALF {
        clear(low, l, c);
        return;
    }
    clear(high, l - HALF, c);
}

// The costs of all locations where all is played.
fn end_all(s: &[u8], low: &mut [u16], high: &mut [u16])
    requires { (WellFormed s.now) × ((Ready 0 low.old) × (Ready 0 high.old)) }
    ensures { Ended s.now low.new high.new }
{
    for l in 0..usize::from(s[0]) {
        end_one(s, l, low, high);
    }
}

// The costs of all locations of a set from the action k on, in the first two tables. First, in the other two, those from the action after it on, of the locations that it enters.
fn lay_from(
    s: &[u8],
    cs: &[u8],
    k: usize,
    places: u16,
    low: &mut [u16],
    high: &mut [u16],
    low2: &mut [u16],
    high2: &mut [u16],
    first: &mut [u16],
    second: &mut [u16],
)
    requires { ((Ground s.now cs.now first.old second.old) × (((1 ≤ k) × (k ≤ length cs.now)) × (InSheet s.now places))) × (((Ready 0 low.old) × (Ready 0 high.old)) × ((Ready 0 low2.old) × (Ready 0 high2.old))) }
    ensures { (LayersOf s.now cs.now k places low.new high.new first.new second.new) × ((Ready 0 low2.new) × (Ready 0 high2.new)) }
{
    if k == cs.len() {
        end_all(s, low, high);
        return;
    }
    let next = targets::of_all(s, cs[k], places);
    lay_from(s, cs, k + 1, next, low2, high2, low, high, first, second);
    lay_all(s, cs, k, places, low2, high2, low, high, first, second);
}

// The memos of the actions after the first, in four tables. Each has a frame of its own, as a memo has: the function calls itself with one more table, until there are four.
// n counts the tables that are there. No plainer: an Option of a mutable slice gets no proof where a function calls itself.
fn with_tables(
    s: &[u8],
    cs: &[u8],
    places: u16,
    n: usize,
    low: &mut [u16],
    high: &mut [u16],
    low2: &mut [u16],
    first: &mut [u16],
    second: &mut [u16],
)
    requires { ((Ground s.now cs.now first.old second.old) × ((1 ≤ length cs.now) × (InSheet s.now places))) × ((1 ≤ n → Ready 0 low.old) × ((2 ≤ n → Ready 0 high.old) × (3 ≤ n → Ready 0 low2.old))) }
    ensures { Filled s.now cs.now places first.new second.new }
{
    let mut own = [0u16; SIZE];
    if n == 0 {
        with_tables(s, cs, places, 1, &mut own, high, low2, first, second);
        return;
    }
    if n == 1 {
        with_tables(s, cs, places, 2, low, &mut own, low2, first, second);
        return;
    }
    if n == 2 {
        with_tables(s, cs, places, 3, low, high, &mut own, first, second);
        return;
    }
    lay_from(s, cs, 1, places, low, high, low2, &mut own, first, second);
}

// The costs right after a reset before each action but the first, in the memos: of all locations that the actions before it can enter from l. With one clock a reset leads to one
// configuration of a location: the search meets few of them, and nothing is done.
pub fn layers(s: &[u8], cs: &[u8], l: u8, first: &mut [u16], second: &mut [u16])
    requires { (Ground s.now cs.now first.old second.old) × (l < locations s.now) }
    ensures { (Ground s.now cs.now first.new second.new) × ((clocks s.now ≡ 1 → (first.new ≡ first.old) × (second.new ≡ second.old)) × (clocks s.now ≡ 2 → NotedFrom s.now cs.now l first.new second.new)) }
{
    if s[1] == 1 {
        return;
    }
    if cs.is_empty() {
        return;
    }
    let places = targets::of(s, cs[0], usize::from(l));
    let mut low = [0u16; 0];
    let mut high = [0u16; 0];
    let mut low2 = [0u16; 0];
    with_tables(
        s, cs, places, 0, &mut low, &mut high, &mut low2, first, second,
    );
}
