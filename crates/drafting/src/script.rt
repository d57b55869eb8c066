// Bytes of sheets and calls from texts.
ghost use Rattle.std.specs.Prelude.{◌≡◌, ◌+◌, ◌-◌, ◌*◌, ◌/◌, ◌%◌, ◌≤◌, length};
ghost use Rattle.std.specs.Counts.{IsPrefixLen};
ghost use Rattle.drafting.specs.Scripts.{Put, bytes_of, is_times, call_from, entry_at, call_bytes, fitting, entry_bytes, calls_of};

use crate::numeral;

// The bytes of a call.
const CALL: usize = 5;

// The lowest byte of a number.
fn low(n: u64) -> u8
    ensures { result ≡ n % 256 }
{
    n.to_le_bytes()[0]
}

// The numbers of a text as bytes, as many as the buffer has places; answers how many.
pub fn bytes_of(text: &[u8], out: &mut [u8]) -> usize
    ensures { (IsPrefixLen result out.new) × (Put out.old 0 (bytes_of (length out.old) text.now) out.new result) }
{
    let mut n: usize = 0;
    let mut i = numeral::first_digit(text, 0);
    // A `for` is no plainer: each turn goes on where the number that it read ends.
    while i < text.len() && n < out.len() {
        let next = numeral::number_at(text, i);
        out[n] = low(next.value);
        n += 1;
        i = numeral::first_digit(text, next.end);
    }
    n
}

// A call, how often it is made, and the place after it in the text.
#[derive(Clone, Copy)]
struct Entry {
    times: u64,
    action: u64,
    date: u64,
    end: usize,
}

// Whether " x" stands at a place.
fn is_times(text: &[u8], at: usize) -> bool
    ensures { result ≡ is_times text.now at }
{
    at <= text.len() && text[at..].starts_with(b" x")
}

// An action and its date, from a place on.
#[tactic(auto, unfolding(crate::specs::Scripts::call_from))]
fn call_from(text: &[u8], at: usize, times: u64) -> Entry
    ensures { result ≡ call_from text.now at times }
{
    let action = numeral::number_at(text, at);
    let next = numeral::first_digit(text, action.end);
    let date = numeral::number_at(text, next);
    Entry {
        times,
        action: action.value,
        date: date.value,
        end: date.end,
    }
}

// The call whose digits begin at a place, as "0 at 4", or "17 x 0 at 4" for seventeen of them.
#[tactic(auto, unfolding(crate::specs::Scripts::entry_at))]
fn entry_at(text: &[u8], at: usize) -> Entry
    ensures { result ≡ entry_at text.now at }
{
    let first = numeral::number_at(text, at);
    if is_times(text, first.end) {
        let next = numeral::first_digit(text, first.end);
        return call_from(text, next, first.value);
    }
    call_from(text, at, 1)
}

// Puts a call at a place: an action, or 255 for a collection, and a date in four bytes.
fn put_call(out: &mut [u8], at: usize, action: u64, date: u64)
    requires { at + 5 ≤ length out.old }
    ensures { Put out.old at (call_bytes action date) out.new (at + 5) }
{
    let d = date.to_le_bytes();
    out[at..at + CALL].copy_from_slice(&[low(action), d[0], d[1], d[2], d[3]]);
}

// Puts a call as often as it is made, but at least once and no oftener than there is room; answers the place after it.
fn put_entry(out: &mut [u8], at: usize, e: Entry) -> usize
    requires { at + 5 ≤ length out.old }
    ensures { (result ≡ at + 5 + 5 * fitting (e.times - 1) (length out.old) (at + 5)) × (Put out.old at (entry_bytes (length out.old) at e) out.new result) }
{
    let room = (out.len() - at) / CALL;
    let n = e.times.max(1).min(room as u64) as usize;
    for k in 0..n {
        put_call(out, at + CALL * k, e.action, e.date);
    }
    at + CALL * n
}

// The calls of a text as calls of five bytes, as many as there is room for; answers the size.
pub fn calls_of(text: &[u8], out: &mut [u8]) -> usize
    ensures { (IsPrefixLen result out.new) × (Put out.old 0 (calls_of (length out.old / 5) text.now) out.new result) }
{
    let mut n: usize = 0;
    let mut i = numeral::first_digit(text, 0);
    // A `for` is no plainer: each turn goes on where the entry that it read ends.
    while i < text.len() && n + CALL <= out.len() {
        let e = entry_at(text, i);
        let next = e.end;
        n = put_entry(out, n, e);
        i = numeral::first_digit(text, next);
    }
    n
}
