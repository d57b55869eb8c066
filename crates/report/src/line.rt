// The desk program's lines, as text at a place of a lent buffer. Each function answers the place after what it put.
ghost use Rattle.std.specs.Prelude.{◌≡◌, ◌++◌, ◌+◌, ◌≤◌, length};
ghost use Rattle.retimer.specs.declared.state.Answer.TheVariants.{Played};
ghost use Rattle.retimer.specs.Reasons.{reason_of};
ghost use Rattle.retimer.specs.Checked.{figures_of, checked_of};
ghost use Rattle.retimer.specs.Bytes.{Wrote};
ghost use Rattle.report.specs.Texts.{ascii, numeral, figure};
ghost use Rattle.report.specs.Lines.{reason_text, header_text, sheet_line, refused_line, checked_line, answer_text, lamp_text, call_line, tail_line};

use crate::text::{put_figure, put_number};
use retimer::bytes::put;
use retimer::limits::Slot;
use retimer::reason::Reason;
use retimer::sheet::Counts;
use retimer::state::Answer;

// Room for a call's line, and for a sheet's.
pub const LINE: usize = 120;

pub const SHEET: usize = 128;

// A reason as document 01 writes it. No `impl Display`: its contract says nothing of the text, and a `String` needs a heap.
fn spelled(r: Reason) -> [u8; 3]
    ensures { result ≡ reason_text (reason_of r) }
{
    match r {
        Reason::I1 => *b"I-1",
        Reason::I2 => *b"I-2",
        Reason::I3 => *b"I-3",
        Reason::I4 => *b"I-4",
        Reason::I5 => *b"I-5",
        Reason::I6 => *b"I-6",
        Reason::I7 => *b"I-7",
        Reason::I8 => *b"I-8",
        Reason::S1 => *b"S-1",
        Reason::S2 => *b"S-2",
        Reason::S3 => *b"S-3",
        Reason::S4 => *b"S-4",
        Reason::S5 => *b"S-5",
    }
}

fn put_reason(out: &mut [u8], at: usize, r: Reason) -> usize
    requires { at + 3 ≤ length out.old }
    ensures { Wrote out.old at (reason_text (reason_of r)) out.new result }
{
    let text = spelled(r);
    put(out, at, &text)
}

// A sheet's locations, clocks and actions.
fn put_header(out: &mut [u8], at: usize, k: Counts) -> usize
    requires { at + 68 ≤ length out.old }
    ensures { Wrote out.old at (header_text (figures_of k)) out.new result }
{
    let locations = put_figure(out, at, b"sheet ", k.locations as u64);
    let clocks = put_figure(out, locations, b" ", k.clocks as u64);
    put_figure(out, clocks, b" ", k.actions as u64)
}

// The first line for a sheet that loads: the header, the transitions and the accepting locations.
fn sheet_line(out: &mut [u8], at: usize, k: Counts) -> usize
    requires { at + 128 ≤ length out.old }
    ensures { Wrote out.old at (sheet_line (figures_of k)) out.new result }
{
    let header = put_header(out, at, k);
    let transitions = put_figure(out, header, b" ", k.transitions as u64);
    let accepting = put_figure(out, transitions, b" ", k.accepting as u64);
    put(out, accepting, b"\n")
}

// The only line for a sheet that does not.
fn refused_line(out: &mut [u8], at: usize, r: Reason) -> usize
    requires { at + 128 ≤ length out.old }
    ensures { Wrote out.old at (refused_line (reason_of r)) out.new result }
{
    let word = put(out, at, b"sheet refused ");
    let reason = put_reason(out, word, r);
    put(out, reason, b"\n")
}

// The first line, by what the check of the sheet answered.
pub fn checked_line(out: &mut [u8], at: usize, c: Result<Counts, Reason>) -> usize
    requires { at + 128 ≤ length out.old }
    ensures { Wrote out.old at (checked_line (checked_of c)) out.new result }
{
    match c {
        Ok(k) => sheet_line(out, at, k),
        Err(r) => refused_line(out, at, r),
    }
}

// A word with a number and an event's date after it.
fn put_dated(out: &mut [u8], at: usize, word: &[u8], n: u8, date: u32) -> usize
    requires { at + length word.now + 41 ≤ length out.old }
    ensures { Wrote out.old at (word.now ++ numeral n ++ figure " " date) out.new result }
{
    let number = put_figure(out, at, word, n as u64);
    put_figure(out, number, b" ", date as u64)
}

// A played action with its date, its number and its offered date.
fn put_played(out: &mut [u8], at: usize, slot: Slot) -> usize
    requires { at + 90 ≤ length out.old }
    ensures { Wrote out.old at (answer_text (Played slot)) out.new result }
{
    let r = slot.request;
    let dated = put_dated(out, at, b"played ", r.action, slot.date);
    let numbered = put_figure(out, dated, b" ", r.number as u64);
    put_figure(out, numbered, b" ", r.offered as u64)
}

// What a call answered.
pub fn put_answer(out: &mut [u8], at: usize, a: Answer) -> usize
    requires { at + 90 ≤ length out.old }
    ensures { Wrote out.old at (answer_text a) out.new result }
{
    match a {
        Answer::Scheduled { count, last } => put_dated(out, at, b"scheduled ", count, last),
        Answer::Held(count) => put_figure(out, at, b"held ", count as u64),
        Answer::Dropped => put(out, at, b"dropped"),
        Answer::Played(slot) => put_played(out, at, slot),
        Answer::Nothing => put(out, at, b"none"),
        Answer::Lit => put(out, at, b"lit"),
        Answer::Dark => put(out, at, b"dark"),
        Answer::Refused(r) => put_refused(out, at, r),
    }
}

// The word "refused" with the reason.
fn put_refused(out: &mut [u8], at: usize, r: Reason) -> usize
    requires { at + 11 ≤ length out.old }
    ensures { Wrote out.old at (ascii "refused " ++ reason_text (reason_of r)) out.new result }
{
    let word = put(out, at, b"refused ");
    put_reason(out, word, r)
}

// The lamp after a call, and the line's end.
fn put_lamp(out: &mut [u8], at: usize, lit: bool) -> usize
    requires { at + 8 ≤ length out.old }
    ensures { Wrote out.old at (lamp_text lit) out.new result }
{
    if lit {
        return put(out, at, b" lamp 1\n");
    }
    put(out, at, b" lamp 0\n")
}

// The line of the call number n: its answer, and the lamp after it.
pub fn call_line(out: &mut [u8], at: usize, n: u64, a: Answer, lit: bool) -> usize
    requires { at + 120 ≤ length out.old }
    ensures { Wrote out.old at (call_line n (answer_text a) lit) out.new result }
{
    let number = put_number(out, at, n);
    let blank = put(out, number, b" ");
    let answer = put_answer(out, blank, a);
    put_lamp(out, answer, lit)
}

// The line for bytes left over, where there are any.
pub fn tail_line(out: &mut [u8], at: usize, n: usize) -> usize
    requires { at + 120 ≤ length out.old }
    ensures { Wrote out.old at (tail_line n) out.new result }
{
    if n == 0 {
        return at;
    }
    let number = put_figure(out, at, b"tail ", n as u64);
    put(out, number, b"\n")
}
