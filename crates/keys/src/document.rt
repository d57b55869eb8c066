// The keys that document 01 prints, with its largest bound as document 02 has it.
use crate::ask::ask_all;
use std::io;

// Questions P1 to P10, with collections after some that show the dates.
pub fn proved(rt: &impl Print) -> io::Result<()> {
    ask_all(
        rt,
        b"\
P1 to P3; A; 1 at 4, 1 at 5, 0 at 6, 1 at 6; Dates 4, 9; then 0 at 9; then 1 at 14.
P4; B; 1 at 0; No rule of location 0 has command 1.
P5 and P6; B; 0 at 3, 1 at 5, 0 at 5, 255 at 5, 255 at 14, 255 at 15; 0 waits for its 1; the dates are 5 and 15, and location 2 has no rules.
P7; C; 0 at 5, 255 at 8, 1 at 8, 255 at 8, 255 at 8; At 8 command 0 is still in time: 8 and 8.
P8; C; 0 at 5, 255 at 9, 1 at 9, 0 at 9, 255 at 1000000000; At 9 it is not, and stays held: the lamp stays lit, and all is dropped.
P9; D; 0 at 2, 1 at 3, 255 at 3, 255 at 9, 255 at 10; Both 3, 10 and 10, 10 end first; 3, 10 is first in order.
",
    )
}

// The lists at their limits.
pub fn full(rt: &impl Print) -> io::Result<()> {
    ask_all(
        rt,
        b"\
P10; E; 17 x 0 at 0, 1 at 0, 255 at 0; Sixteen held, S-4, and then a correction of seventeen.
The last date; A; 1 at 1000000000, 1 at 1000000000; The second 1 would come 5 ticks after the last date.
A full schedule; A; 33 x 0 at 0, 255 at 0, 0 at 0, 0 at 0; Thirty-two are scheduled; one collection makes room for one more.
",
    )
}

// Bounds that load and bounds that do not.
pub fn bounds(rt: &impl Print) -> io::Result<()> {
    ask_all(
        rt,
        b"\
High 40; 3 1 2 0 4 0, 18 0 7 0 25 0 7 0 32 0 0 0, 0 1 0 0 40 0 255, 1 2 0 0 20 0 255; ; 40 is the largest bound.
High 41; 3 1 2 0 4 0, 18 0 7 0 25 0 7 0 32 0 0 0, 0 1 0 0 41 0 255, 1 2 0 0 20 0 255; ; 41 is above it.
High 30; 3 1 2 0 4 0, 18 0 7 0 25 0 7 0 32 0 0 0, 0 1 0 0 30 0 255, 1 2 0 0 20 0 255; ; 30 loads as before.
High 31; 3 1 2 0 4 0, 18 0 7 0 25 0 7 0 32 0 0 0, 0 1 0 0 31 0 255, 1 2 0 0 20 0 255; ; 31 is below it.
0 to 4 and 5 to 255; 1 1 1 0 1 0, 10 0 14 0, 0 0 0 0 4 0 255, 0 0 0 5 255 0 255; ; Intervals that touch in no reading.
0 to 5 and 5 to 255; 1 1 1 0 1 0, 10 0 14 0, 0 0 0 0 5 0 255, 0 0 0 5 255 0 255; ; Reading 5 satisfies both.
",
    )
}

// The course sheets with no calls: the first line alone.
pub fn no_calls(rt: &impl Print) -> io::Result<()> {
    ask_all(
        rt,
        b"\
Sheet A; A; ; Four rules, both locations accepting.
Sheet B; B; ; Two rules, one accepting location.
Sheet C; C; ; The same figures as B.
Sheet D; D; ; The same figures as B.
Sheet E; E; ; Two rules, location 1 accepting.
",
    )
}
