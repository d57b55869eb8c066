// Sheets at the largest sizes.
ghost use Rattle.std.specs.Prelude.{◌≡◌, ◌+◌, ◌≤◌, length};

use crate::ask::ask_front;
use drafting::script;
use std::io;

// The largest sheet and a rule more.
const ROOM: usize = 525;

// Puts the rule number i of the largest sheet at a place: command and next location i % 16; the four rules of a command have the readings 0, 1, 2 and from 3 on.
fn put_transition(sheet: &mut [u8], at: usize, i: u8)
    requires { at + 7 ≤ length sheet.old }
{
    let low = i / 16;
    let high = if low < 3 { low } else { 255 };
    sheet[at] = i % 16;
    sheet[at + 1] = i % 16;
    sheet[at + 3] = low;
    sheet[at + 4] = high;
    sheet[at + 6] = 255;
}

// Puts the 64 rules of location 0.
fn put_transitions(sheet: &mut [u8])
    requires { length sheet.old ≡ 525 }
{
    for i in 0..64u8 {
        put_transition(sheet, 70 + 7 * usize::from(i), i);
    }
}

// 518 bytes: 16 locations, two clocks, 16 commands, all locations accepting, and 64 rules (448 bytes) of location 0. Command 0 stays in location 0; command 5
// leads to location 5, which has no rules.
fn largest(rt: &impl Print) -> io::Result<()> {
    let header =
        b"16 2 16 0 255 255, 70 0 192 1, 6 2 0 0, 6 2 0 0, 6 2 0 0, 6 2 0 0, 6 2 0 0, 6 2 0 0, 6 2 0 0, 6 2 0 0, 6 2 0 0, 6 2 0 0, 6 2 0 0, 6 2 0 0, 6 2 0 0, 6 2 0 0, 6 2 0 0";
    let mut sheet = [0u8; ROOM];
    script::bytes_of(header, &mut sheet);
    put_transitions(&mut sheet);
    ask_front(
        rt,
        b"The largest sheet",
        &sheet,
        518,
        b"0 at 0, 5 at 7, 0 at 7",
    )?;
    ask_front(rt, b"A byte more", &sheet, 519, b"")
}

// 65 rules are too many, whatever they say. 64 rules of zeros are in range, with two clocks, and overlap.
pub fn all(rt: &impl Print) -> io::Result<()> {
    largest(rt)?;
    let mut sheet = [0u8; ROOM];
    script::bytes_of(b"1 1 1 0 1 0, 10 0 199 1", &mut sheet);
    ask_front(rt, b"Sixty-five rules", &sheet, 465, b"")?;
    script::bytes_of(b"1 2 1 0 1 0, 10 0 192 1", &mut sheet);
    ask_front(rt, b"Sixty-four rules alike", &sheet, 458, b"")
}
