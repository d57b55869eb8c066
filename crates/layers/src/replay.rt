// Lists of calls on a fresh box: the last answer, and the box after them.
use crate::print;
use drafting::script;
use marking::{block, desk};
use report::line;
use retimer::limits::{Request, State};
use retimer::replay;
use retimer::state::Answer;
use std::io;

pub fn print_answer(rt: &impl Print, a: Answer) -> io::Result<()> {
    let mut out = [0u8; line::LINE];
    let end = line::put_answer(&mut out, 0, a);
    print::word(rt, &out[..end])
}

// A number, and the date at which what has it was offered.
fn print_number(rt: &impl Print, r: Request) -> io::Result<()> {
    print::number(rt, r.number as u64)?;
    print::date(rt, r.offered)
}

// The held commands, each with its number and its offered date.
fn print_pending(rt: &impl Print, q: State) -> io::Result<()> {
    for r in q.pending.iter().take(q.held) {
        print::byte(rt, r.action)?;
        print_number(rt, *r)?;
    }
    Ok(())
}

// The scheduled commands, each with its date, its number and its offered date.
fn print_schedule(rt: &impl Print, q: State) -> io::Result<()> {
    for e in q.schedule.iter().take(q.planned) {
        let r = e.request;
        print::byte(rt, r.action)?;
        print::date(rt, e.date)?;
        print_number(rt, r)?;
    }
    Ok(())
}

// The location, the readings and the date last reached.
fn print_last(rt: &impl Print, q: State) -> io::Result<()> {
    let r = q.readings;
    if r.len() == 2 {
        print::configuration(rt, q.location, r[0], r[1])?;
    }
    print::date(rt, q.last)
}

fn print_state(rt: &impl Print, q: State) -> io::Result<()> {
    print::word(rt, b"; date")?;
    print::date(rt, q.date)?;
    print::word(rt, b"; held")?;
    print::number(rt, q.held as u64)?;
    print_pending(rt, q)?;
    print::word(rt, b"; schedule")?;
    print_schedule(rt, q)?;
    print::word(rt, b"; last")?;
    print_last(rt, q)?;
    print::word(rt, b"; numbered")?;
    print::date(rt, q.numbered)?;
    print::word(rt, b"; lamp")?;
    print::truth(rt, q.lit)
}

// The calls of a text on a fresh box of a sheet that is loaded at a date.
fn replay_at(
    rt: &impl Print,
    title: &[u8],
    sheet: &[u8],
    loaded: u32,
    text: &[u8],
) -> io::Result<()> {
    let mut calls = [0u8; block::BYTES];
    let n = script::calls_of(text, &mut calls);
    let r = replay::replay(sheet, loaded, &calls[..n]);
    let checked = r.checked;
    let answer = r.answer;
    let b = r.monitor;
    let q = b.state;
    print::word(rt, title)?;
    desk::print_checked(rt, checked)?;
    print_answer(rt, answer)?;
    print_state(rt, q)
}

fn replay(rt: &impl Print, title: &[u8], sheet: &[u8], text: &[u8]) -> io::Result<()> {
    replay_at(rt, title, sheet, 0, text)
}

// Questions P1 to P10.
pub fn keys(rt: &impl Print) -> io::Result<()> {
    print::word(rt, b"replay\n")?;
    let a = course::sheet_a();
    replay(rt, b"P1: ", &a, b"1 at 4, 1 at 5")?;
    replay(rt, b"P2: ", &a, b"1 at 4, 1 at 5, 0 at 6")?;
    replay(rt, b"P3: ", &a, b"1 at 4, 1 at 5, 0 at 6, 1 at 6")?;
    let b = course::sheet_b();
    replay(rt, b"P4: ", &b, b"1 at 0")?;
    replay(rt, b"P5: ", &b, b"0 at 3, 1 at 5")?;
    replay(rt, b"P6: ", &b, b"0 at 3, 1 at 5, 0 at 5")?;
    let c = course::sheet_c();
    replay(rt, b"P7: ", &c, b"0 at 5, 255 at 8, 1 at 8")?;
    replay(rt, b"P8: ", &c, b"0 at 5, 255 at 9, 1 at 9")?;
    let d = course::sheet_d();
    replay(rt, b"P9: ", &d, b"0 at 2, 1 at 3")?;
    let e = course::sheet_e();
    replay(rt, b"P10: ", &e, b"17 x 0 at 0, 1 at 0")
}

// No call, held commands, both lists empty after a batch was played, and a sheet that does not load.
pub fn edges(rt: &impl Print) -> io::Result<()> {
    let a = course::sheet_a();
    replay(rt, b"no call: ", &a, b"")?;
    let e = course::sheet_e();
    replay(rt, b"held: ", &e, b"0 at 2, 0 at 7")?;
    let b = course::sheet_b();
    replay(rt, b"played: ", &b, b"0 at 3, 1 at 5, 255 at 15, 255 at 16")?;
    replay(rt, b"refused: ", &a[..41], b"0 at 1")
}

// Numbers: a refused offer between held ones, and a dropped one before them.
pub fn numbers(rt: &impl Print) -> io::Result<()> {
    let e = course::sheet_e();
    replay(
        rt,
        b"refused between: ",
        &e,
        b"0 at 2, 0 at 7, 0 at 6, 1 at 9",
    )?;
    let b = course::sheet_b();
    replay(
        rt,
        b"dropped before: ",
        &b,
        b"1 at 0, 0 at 3, 2 at 4, 1 at 5",
    )
}

// Loading dates: a fresh box, one whose clocks have run, a call before it, the last date, and dates above it.
pub fn dates(rt: &impl Print) -> io::Result<()> {
    let c = course::sheet_c();
    replay_at(rt, b"fresh at 43200: ", &c, 43_200, b"")?;
    replay_at(
        rt,
        b"P7 at 43200: ",
        &c,
        43_200,
        b"0 at 43205, 255 at 43208, 1 at 43208",
    )?;
    replay_at(
        rt,
        b"P8 at 43200: ",
        &c,
        43_200,
        b"0 at 43205, 255 at 43209, 1 at 43209",
    )?;
    replay_at(rt, b"before 43200: ", &c, 43_200, b"0 at 43200, 0 at 43199")?;
    let a = course::sheet_a();
    replay_at(rt, b"fresh at the last date: ", &a, 1_000_000_000, b"")?;
    replay_at(rt, b"too late: ", &a, 1_000_000_001, b"0 at 1000000001")?;
    replay_at(rt, b"refused and too late: ", &a[..41], 1_000_000_001, b"")
}
