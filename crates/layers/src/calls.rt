// The box's own calls, by value: a box that is loaded, holds a command, and is lit when its date has passed.
use crate::{print, replay};
use retimer::limits::Monitor;
use retimer::state::Answer;
use std::io;

fn print_call(rt: &impl Print, title: &[u8], a: Answer) -> io::Result<()> {
    print::word(rt, title)?;
    replay::print_answer(rt, a)?;
    print::word(rt, b"\n")
}

// Question P8 of document 01, with lamp calls.
pub fn all(rt: &impl Print) -> io::Result<()> {
    let c = course::sheet_c();
    let start = Monitor::load(&c, 0);
    let checked = start.checked;
    let b = start.monitor;
    let Ok(_) = checked else {
        return Ok(());
    };
    print::word(rt, b"calls\n")?;
    let held = b.offer(0, 5);
    let held_answer = held.answer;
    print_call(rt, b"offer: ", held_answer)?;
    let after = held.monitor;
    let dark = after.lamp();
    let dark_answer = dark.answer;
    print_call(rt, b"lamp: ", dark_answer)?;
    let before = dark.monitor;
    let none = before.collect(9);
    let none_answer = none.answer;
    print_call(rt, b"collect: ", none_answer)?;
    let later = none.monitor;
    let lit = later.lamp();
    let lit_answer = lit.answer;
    print_call(rt, b"lamp: ", lit_answer)?;
    let last = lit.monitor;
    let dropped = last.offer(1, 9);
    let dropped_answer = dropped.answer;
    print_call(rt, b"offer: ", dropped_answer)
}
