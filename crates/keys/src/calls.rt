// Refusals of calls, at their edges. A refused call hands back the box as it came: the calls after it show that.
use crate::ask::ask_all;
use std::io;

// I-7 and I-8.
pub fn input(rt: &impl Print) -> io::Result<()> {
    ask_all(
        rt,
        b"\
I-7; A; 2 at 0, 254 at 0, 2 at 1000000001, 1 at 0; Sheet A has two commands; I-7 is tested before I-8.
I-8; A; 0 at 1000000001, 0 at 4294967295, 255 at 1000000001, 0 at 0, 255 at 1000000000, 0 at 1000000000; The last date is a date; the next is not.
",
    )
}

// S-1, and what moves the date.
pub fn date(rt: &impl Print) -> io::Result<()> {
    ask_all(
        rt,
        b"\
S-1; A; 0 at 5, 0 at 4, 255 at 4, 2 at 4, 255 at 5, 255 at 5, 0 at 5; A date may come again, and none may fall; I-7 is tested before S-1.
S-1 after none and a drop; C; 0 at 5, 255 at 6, 0 at 5, 0 at 7, 1 at 6, 1 at 7; A collection that answers none moves the date, and so does a drop.
Refusals leave the date; A; 0 at 2, 2 at 9, 0 at 1000000001, 0 at 1, 0 at 2; No refusal moves it.
",
    )
}

// S-2.
pub fn late(rt: &impl Print) -> io::Result<()> {
    ask_all(
        rt,
        b"\
S-2, in time; B; 0 at 999999990, 1 at 999999990; 0 and 1 ten ticks later: the last date is just reached.
S-2, a tick late; B; 0 at 999999991, 1 at 999999991, 255 at 999999991, 1 at 999999991; One tick later it is not; the lamp knows no last date.
S-2 before S-3; A; 1 at 1000000000, 31 x 0 at 1000000000, 1 at 1000000000, 0 at 1000000000; With no place free, 1 is S-2 all the same, and 0 is S-3.
",
    )
}

// S-3 and S-4, on sheet E with command 0 leading back from location 1 to 0, so that batches follow each other.
pub fn room(rt: &impl Print) -> io::Result<()> {
    ask_all(
        rt,
        b"\
S-3 counts the whole batch; 2 1 2 0 2 0, 14 0 14 0 28 0 7 0, 0 0 0 0 255 0 255, 1 1 0 0 255 0 255, 0 0 0 0 255 0 255; 16 x 0 at 0, 1 at 0, 15 x 0 at 0, 1 at 0, 255 at 0, 1 at 0, 0 at 0, 1 at 0; Seventeen leave 15 places: sixteen do not fit, and fit after one collection. Holding takes no place of the schedule.
S-3, just room enough; 2 1 2 0 2 0, 14 0 14 0 28 0 7 0, 0 0 0 0 255 0 255, 1 1 0 0 255 0 255, 0 0 0 0 255 0 255; 16 x 0 at 0, 1 at 0, 14 x 0 at 0, 1 at 0; Fifteen fit exactly.
S-4; 2 1 2 0 2 0, 14 0 14 0 28 0 7 0, 0 0 0 0 255 0 255, 1 1 0 0 255 0 255, 0 0 0 0 255 0 255; 16 x 0 at 0, 0 at 0, 0 at 7, 1 at 3, 0 at 3; S-4 does not move the date, and a correction is looked for first.
No S-4 for a drop; 2 1 3 0 2 0, 14 0 14 0 28 0 0 0, 0 0 0 0 255 0 255, 1 1 0 0 255 0 255; 16 x 0 at 0, 2 at 0, 1 at 0; Command 2 has no rule: it is dropped, whatever is held.
",
    )
}

// Numbers: from 1, one for each offer that is scheduled, held or dropped. "played" has command, date, number and offered date.
pub fn numbers(rt: &impl Print) -> io::Result<()> {
    ask_all(
        rt,
        b"\
Numbers from 1; A; 1 at 4, 1 at 5, 255 at 9, 255 at 9; The second is offered at 5, and played at 9.
Held commands keep theirs; E; 0 at 2, 0 at 7, 1 at 9, 255 at 9, 255 at 9, 255 at 9; The offer that completes a batch gives its own number and date to its own command alone.
A dropped offer has a number; B; 1 at 0, 0 at 3, 1 at 5, 255 at 5, 255 at 15; 1 was the first offer, so the batch has 2 and 3.
A refused offer has none; B; 2 at 3, 0 at 3, 0 at 1000000001, 0 at 2, 255 at 4, 1 at 5, 255 at 5, 255 at 15; Neither I-7, I-8 nor S-1 takes a number, nor does a collection.
S-3 and S-4 take none; 2 1 2 0 2 0, 14 0 14 0 28 0 7 0, 0 0 0 0 255 0 255, 1 1 0 0 255 0 255, 0 0 0 0 255 0 255; 16 x 0 at 0, 0 at 1, 1 at 2, 16 x 0 at 3, 1 at 4, 255 at 4, 255 at 4, 1 at 5, 18 x 255 at 6; Seventeen have 1 to 17. Then sixteen are held, 18 to 33, and 1 is S-3 until two are played: it has 34.
S-2 takes none; B; 0 at 999999991, 1 at 999999991, 255 at 999999991; 1 is S-2, and the held 0 keeps 1.
",
    )
}

// Collections: the oldest, one at a time, once its date has come.
pub fn collections(rt: &impl Print) -> io::Result<()> {
    ask_all(
        rt,
        b"\
Played in order; A; 1 at 4, 1 at 4, 0 at 4, 255 at 8, 255 at 8, 255 at 9, 255 at 9, 255 at 9; Scheduled at 4, 9 and 9; at 8 the second has not come.
",
    )
}
