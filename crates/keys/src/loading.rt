// Boxes that are loaded at a later date: clocks read 0 there, and no call comes before it.
use crate::ask::ask_all_at;
use std::io;

// The middle of a day.
pub fn midday(rt: &impl Print) -> io::Result<()> {
    ask_all_at(
        rt,
        43_200,
        b"\
P7 at midday; C; 0 at 43205, 255 at 43208, 1 at 43208; The dates of P7, all 43200 later: a bound counts from there.
P8 at midday; C; 0 at 43205, 255 at 43209, 1 at 43209; And those of P8: reading 9 is past the bound 8.
P9 at midday; D; 0 at 43202, 1 at 43203, 255 at 43203, 255 at 43210; Command 1 comes from reading 10 on, which is date 43210.
Before loading; A; 0 at 43199, 255 at 43199, 255 at 0, 0 at 43200, 255 at 43200; Each date before the loading date is S-1, and that date itself is not.
No later than asked; A; 1 at 43200, 1 at 43200, 255 at 43205, 255 at 43205; The last scheduled date is the loading date, so the first may play there.
",
    )
}

// The last date, and those above it.
pub fn limit(rt: &impl Print) -> io::Result<()> {
    ask_all_at(
        rt,
        1_000_000_000,
        b"\
Loaded at the last date; A; 0 at 999999999, 1 at 1000000000, 1 at 1000000000, 255 at 1000000000, 0 at 1000000001; The last date is a date: a box can be loaded there, and play.
The lamp at the last date; B; 0 at 1000000000, 1 at 1000000000, 1 at 1000000000; The lamp knows no last date: it is dark, and 1 is S-2.
",
    )?;
    ask_all_at(
        rt,
        1_000_000_001,
        b"\
Loaded a tick too late; A; 0 at 1000000001; I-8, and no call is made.
Its own refusal first; 1 1 1 0 1 0, 10 0 14 0, 0 0 0 0 5 0 255, 0 0 0 5 255 0 255; 0 at 0; I-6 is tested before the date.
",
    )?;
    ask_all_at(
        rt,
        4_294_967_295,
        b"\
The latest number there is; C; 0 at 4294967295; I-8.
Too short at any date; 2 1 2 0 3; 0 at 0; I-1 is tested first.
",
    )
}
