// Readings at the edges of bounds, one clock and two.
use crate::ask::ask_all;
use std::io;

// One rule of command 0, from location 0 to 1, which is accepting and has no rules: so the lamp is lit at the end.
pub fn one_clock(rt: &impl Print) -> io::Result<()> {
    ask_all(
        rt,
        b"\
30 to 30; 2 1 1 0 2 0, 14 0 7 0 21 0 0 0, 0 1 0 30 30 0 255; 255 at 0, 0 at 5, 255 at 29, 255 at 30; It waits for reading 30.
30 to 30, at 30; 2 1 1 0 2 0, 14 0 7 0 21 0 0 0, 0 1 0 30 30 0 255; 255 at 30, 0 at 30; It is just in time.
30 to 30, at 31; 2 1 1 0 2 0, 14 0 7 0 21 0 0 0, 0 1 0 30 30 0 255; 255 at 31, 0 at 31; At 31 the reading is past.
30 to 255, at 29; 2 1 1 0 2 0, 14 0 7 0 21 0 0 0, 0 1 0 30 255 0 255; 0 at 29; It waits a tick.
30 to 255, late; 2 1 1 0 2 0, 14 0 7 0 21 0 0 0, 0 1 0 30 255 0 255; 255 at 31, 0 at 1000000000; No bound of the sheet tells readings above 30 apart.
36 to 36; 2 1 1 0 2 0, 14 0 7 0 21 0 0 0, 0 1 0 36 36 0 255; 255 at 31, 0 at 32, 255 at 35, 255 at 36; It waits for reading 36.
36 to 36, at 37; 2 1 1 0 2 0, 14 0 7 0 21 0 0 0, 0 1 0 36 36 0 255; 255 at 37, 0 at 37; At 37 the reading is past.
40 to 40; 2 1 1 0 2 0, 14 0 7 0 21 0 0 0, 0 1 0 40 40 0 255; 255 at 0, 0 at 5, 255 at 39, 255 at 40; It waits for reading 40.
40 to 40, at 40; 2 1 1 0 2 0, 14 0 7 0 21 0 0 0, 0 1 0 40 40 0 255; 255 at 40, 0 at 40; It is just in time.
40 to 40, at 41; 2 1 1 0 2 0, 14 0 7 0 21 0 0 0, 0 1 0 40 40 0 255; 255 at 41, 0 at 41; At 41 the reading is past.
40 to 255, at 39; 2 1 1 0 2 0, 14 0 7 0 21 0 0 0, 0 1 0 40 255 0 255; 0 at 39; It waits a tick.
40 to 255, late; 2 1 1 0 2 0, 14 0 7 0 21 0 0 0, 0 1 0 40 255 0 255; 255 at 41, 0 at 1000000000; Readings above 40 act alike.
0 to 0, at 0; 2 1 1 0 2 0, 14 0 7 0 21 0 0 0, 0 1 0 0 0 0 255; 0 at 0; It is just in time.
0 to 0, at 1; 2 1 1 0 2 0, 14 0 7 0 21 0 0 0, 0 1 0 0 0 0 255; 255 at 1, 0 at 1; At 1 the reading is past.
",
    )
}

// Command 0 from location 0 to 1, command 1 from 1 to 2, which is accepting.
pub fn resets(rt: &impl Print) -> io::Result<()> {
    ask_all(
        rt,
        b"\
0 to 0 after a reset; 3 1 2 0 4 0, 18 0 7 0 25 0 7 0 32 0 0 0, 0 1 1 0 255 0 255, 1 2 0 0 0 0 255; 0 at 7, 1 at 9, 255 at 9, 255 at 9; Clock 1 is reset by 0, and 1 comes at once.
Two clocks; 3 2 2 0 4 0, 18 0 7 0 25 0 7 0 32 0 0 0, 0 1 1 0 255 0 255, 1 2 0 3 5 0 10; 0 at 7, 1 at 7, 255 at 7, 255 at 10; 1 comes 3 to 5 ticks after 0, and by date 10.
Two clocks, too late; 3 2 2 0 4 0, 18 0 7 0 25 0 7 0 32 0 0 0, 0 1 1 0 255 0 255, 1 2 0 3 5 0 10; 0 at 8; At 8 it is too late for both.
Two clocks, held too long; 3 2 2 0 4 0, 18 0 7 0 25 0 7 0 32 0 0 0, 0 1 1 0 255 0 255, 1 2 0 3 5 0 10; 0 at 7, 255 at 8, 1 at 8; Held in time, and then too late.
Reset of clock 2; 3 2 2 0 4 0, 18 0 7 0 25 0 7 0 32 0 0 0, 0 1 2 0 255 0 255, 1 2 0 0 255 4 4; 0 at 6, 1 at 8; 0 resets clock 2 alone, and 1 comes 4 ticks later.
Clock 1 is kept; 3 2 2 0 4 0, 18 0 7 0 25 0 7 0 32 0 0 0, 0 1 2 0 255 0 255, 1 2 0 0 9 4 4; 0 at 6, 1 at 6; Clock 1 is not reset there: it would read too much.
Thirty-six to settle; 3 2 2 0 4 0, 18 0 7 0 25 0 7 0 32 0 0 0, 0 1 2 0 255 0 255, 1 2 0 0 38 36 40; 0 at 2, 1 at 2, 255 at 2, 255 at 38; Clock 2 is reset by 0 and reads 36 at 38, the last date that clock 1 allows.
Settled too late; 3 2 2 0 4 0, 18 0 7 0 25 0 7 0 32 0 0 0, 0 1 2 0 255 0 255, 1 2 0 0 38 36 40; 0 at 3; Clock 2 would read 35 at 38.
Reset of both clocks; 3 2 2 0 4 0, 18 0 7 0 25 0 7 0 32 0 0 0, 0 1 3 0 255 0 255, 1 2 0 2 255 0 3; 0 at 100, 1 at 100; 1 comes 2 to 3 ticks after 0.
",
    )
}

// Longer lists.
pub fn batches(rt: &impl Print) -> io::Result<()> {
    ask_all(
        rt,
        b"\
Three waits of 30; 4 1 3 0 8 0, 22 0 7 0 29 0 7 0 36 0 7 0 43 0 0 0, 0 1 1 30 255 0 255, 1 2 1 30 255 0 255, 2 3 0 30 255 0 255; 0 at 0, 1 at 0, 2 at 0, 255 at 30, 255 at 59, 255 at 60, 255 at 90; Each command 30 ticks after the one before it.
Three waits of 40; 4 1 3 0 8 0, 22 0 7 0 29 0 7 0 36 0 7 0 43 0 0 0, 0 1 1 40 255 0 255, 1 2 1 40 255 0 255, 2 3 0 40 255 0 255; 0 at 0, 1 at 0, 2 at 0, 255 at 40, 255 at 79, 255 at 80, 255 at 120; Each command 40 ticks after the one before it.
Seventeen with two clocks; 2 2 2 0 2 0, 14 0 14 0 28 0 0 0, 0 0 0 0 255 0 255, 1 1 0 0 255 0 255; 17 x 0 at 0, 1 at 0; Sheet E with two clocks.
No accepting location; 1 1 1 0 0 0, 10 0 7 0, 0 0 0 0 255 0 255; 255 at 0, 0 at 0; Nothing is accepting: the lamp is lit from the start, and all is dropped.
Sixteen locations; 16 1 1 0 1 0, 70 0 7 0 77 0 7 0 84 0 7 0 91 0 7 0 98 0 7 0 105 0 7 0 112 0 7 0 119 0 7 0 126 0 7 0 133 0 7 0 140 0 7 0 147 0 7 0 154 0 7 0 161 0 7 0 168 0 7 0 175 0 7 0, 0 1 0 0 255 0 255, 0 2 0 0 255 0 255, 0 3 0 0 255 0 255, 0 4 0 0 255 0 255, 0 5 0 0 255 0 255, 0 6 0 0 255 0 255, 0 7 0 0 255 0 255, 0 8 0 0 255 0 255, 0 9 0 0 255 0 255, 0 10 0 0 255 0 255, 0 11 0 0 255 0 255, 0 12 0 0 255 0 255, 0 13 0 0 255 0 255, 0 14 0 0 255 0 255, 0 15 0 0 255 0 255, 0 0 0 0 255 0 255; 16 x 0 at 2; Sixteen locations in a ring, a command each.
",
    )
}

// What decides without dates: where a list can lead to, and that no room is said only where the last date is not passed.
pub fn decisions(rt: &impl Print) -> io::Result<()> {
    ask_all(
        rt,
        b"\
A reset on the way; 4 2 3 3 4 0, 22 0 7 0 29 0 7 0 36 0 0 0 36 0 7 0, 0 1 2 0 255 0 255, 1 2 0 0 255 0 5, 2 0 0 0 255 0 255; 255 at 10, 2 at 10; Clock 2 is past 5, but 0 resets it before 1.
Clocks that run together; 3 2 3 0 4 0, 18 0 7 0 25 0 14 0 39 0 0 0, 0 1 0 0 255 0 255, 1 2 0 0 0 10 10, 2 2 0 0 255 0 255; 0 at 0, 1 at 0; Without a reset clock 1 is never 0 with clock 2 at 10.
No room, and too late; 2 1 3 0 1 0, 14 0 14 0 28 0 7 0, 0 0 1 0 255 0 255, 1 1 1 30 255 0 255, 2 0 0 30 255 0 255; 32 x 0 at 999999960, 1 at 999999960, 2 at 999999960; 1 and 2 take 60 ticks, and the last date is 40 away.
",
    )
}
