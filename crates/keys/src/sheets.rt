// Refusals of sheets, at their edges.
use crate::ask::ask_all;
use std::io;

// I-1, and I-2 with the counts just in range. Six bytes are a header, and then I-4, since no pair follows.
pub fn size(rt: &impl Print) -> io::Result<()> {
    ask_all(
        rt,
        b"\
No bytes; ; ; Shorter than 6 bytes.
Five bytes; 1 1 1 0 1; ; Shorter than 6 bytes.
Six bytes; 1 1 1 0 1 0; ; A header in range, and no pair: I-4.
Locations 0; 0 1 1 0 0 0; ; I-2: 1 to 16.
Locations 17; 17 1 1 0 0 0; ; I-2: 1 to 16.
Clocks 0; 1 0 1 0 0 0; ; I-2: 1 or 2.
Clocks 3; 1 3 1 0 0 0; ; I-2: 1 or 2.
Commands 0; 1 1 0 0 0 0; ; I-2: 1 to 16.
Commands 17; 1 1 17 0 0 0; ; I-2: 1 to 16.
The largest counts; 16 2 16 15 255 255; ; All in range, the initial location and the accepting set too: I-4.
",
    )
}

// I-3: the initial location and the accepting set.
pub fn start(rt: &impl Print) -> io::Result<()> {
    ask_all(
        rt,
        b"\
Initial 1 of 1; 1 1 1 1 0 0; ; I-3: not below the locations.
Accepting 1 of 1; 1 1 1 0 2 0; ; I-3: bit 1 is the first beyond.
Accepting 8 of 8; 8 1 1 0 0 1; ; I-3: bit 8 is the low bit of byte 5.
Accepting 7 of 8; 8 1 1 7 128 0; ; Bit 7 is the last in range, and so is initial 7: I-4.
Accepting 15 of 15; 15 1 1 0 0 128; ; I-3: bit 15 is the high bit of byte 5.
I-2 before I-3; 1 3 1 1 0 0; ; Three clocks, and initial 1 of 1.
I-3 before I-4; 1 1 1 1 0 0 99 0 0 0; ; Initial 1 of 1, and an offset of 99.
",
    )
}

// I-4: the pairs.
pub fn layout(rt: &impl Print) -> io::Result<()> {
    ask_all(
        rt,
        b"\
No rules; 1 1 1 0 1 0, 10 0 0 0; ; A length of 0 means none.
Half a pair; 1 1 1 0 1 0, 10 0 0; ; Shorter than 6 + 4.
Offset too high; 1 1 1 0 1 0, 11 0 0 0; ; The first offset is 10.
Offset by its high byte; 1 1 1 0 1 0, 10 1 0 0; ; The first offset is 10, not 266.
Length 6; 1 1 1 0 1 0, 10 0 6 0, 0 0 0 0 255 0; ; Not a multiple of 7.
A rule cut short; 1 1 1 0 1 0, 10 0 7 0, 0 0 0 0 255 0; ; The last rules end past the sheet's end.
A byte left over; 1 1 1 0 1 0, 10 0 7 0, 0 0 0 0 255 0 255, 0; ; The last rules end before the sheet's end.
A gap between rules; 2 1 1 0 1 0, 14 0 7 0 22 0 0 0, 0 0 0 0 255 0 255, 0; ; The second offset is 21.
Pairs in the wrong order; 2 1 1 0 1 0, 21 0 0 0 14 0 7 0, 0 0 0 0 255 0 255; ; The first offset is 14.
Two locations, the first empty; 2 1 1 0 1 0, 14 0 0 0 14 0 7 0, 0 0 0 0 255 0 255; ; Both offsets are 14.
",
    )
}

// I-5: what a rule names, with one clock.
pub fn fields(rt: &impl Print) -> io::Result<()> {
    ask_all(
        rt,
        b"\
A rule in range; 1 1 2 0 1 0, 10 0 7 0, 1 0 1 40 40 0 255; ; Command 1 of 2, location 0 of 1, reset of clock 1, bounds 40.
Command 2 of 2; 1 1 2 0 1 0, 10 0 7 0, 2 0 0 0 255 0 255; ; Not below the commands.
Next location 1 of 1; 1 1 2 0 1 0, 10 0 7 0, 0 1 0 0 255 0 255; ; Not below the locations.
Reset of clock 2; 1 1 2 0 1 0, 10 0 7 0, 0 0 2 0 255 0 255; ; There is one clock.
Reset of both clocks; 1 1 2 0 1 0, 10 0 7 0, 0 0 3 0 255 0 255; ; There is one clock.
Low of clock 2; 1 1 2 0 1 0, 10 0 7 0, 0 0 0 0 255 1 255; ; With one clock it is 0.
High of clock 2; 1 1 2 0 1 0, 10 0 7 0, 0 0 0 0 255 0 40; ; With one clock it is 255.
",
    )
}

// I-5: bounds. With two clocks those of clock 2 are like those of clock 1.
pub fn guards(rt: &impl Print) -> io::Result<()> {
    ask_all(
        rt,
        b"\
Low 41; 1 1 2 0 1 0, 10 0 7 0, 0 0 0 41 255 0 255; ; A low is 0 to 40.
High 254; 1 1 2 0 1 0, 10 0 7 0, 0 0 0 0 254 0 255; ; A high is 0 to 40, or 255.
Low 31; 1 1 2 0 1 0, 10 0 7 0, 0 0 0 31 255 0 255; ; 31 is below 40.
Low above high; 1 1 2 0 1 0, 10 0 7 0, 0 0 0 5 4 0 255; ; 5 is above 4.
Low and high alike; 1 1 2 0 1 0, 10 0 7 0, 0 0 0 5 5 0 255; ; One reading.
Both clocks in range; 1 2 2 0 1 0, 10 0 7 0, 0 0 3 0 40 40 255; ; 40 is a low and a high; both clocks are reset.
Reset set 4; 1 2 2 0 1 0, 10 0 7 0, 0 0 4 0 255 0 255; ; A reset set is 0 to 3.
Low 41 of clock 2; 1 2 2 0 1 0, 10 0 7 0, 0 0 0 0 255 41 255; ; A low is 0 to 40.
High 41 of clock 2; 1 2 2 0 1 0, 10 0 7 0, 0 0 0 0 255 0 41; ; A high is 0 to 40, or 255.
31 to 31 of clock 2; 1 2 2 0 1 0, 10 0 7 0, 0 0 0 0 255 31 31; ; 31 is below 40.
Low above high of clock 2; 1 2 2 0 1 0, 10 0 7 0, 0 0 0 0 255 7 6; ; 7 is above 6.
",
    )
}

// I-6: rules of one location and command, whether a run gets there or not.
pub fn overlaps(rt: &impl Print) -> io::Result<()> {
    ask_all(
        rt,
        b"\
Two commands; 1 1 2 0 1 0, 10 0 14 0, 0 0 0 0 255 0 255, 1 0 0 0 255 0 255; ; Rules of different commands may meet.
First and third; 1 1 2 0 1 0, 10 0 21 0, 0 0 0 0 5 0 255, 1 0 0 0 255 0 255, 0 0 0 5 9 0 255; ; They meet at 5, with another rule between them.
Unreached location; 2 1 1 0 1 0, 14 0 0 0 14 0 14 0, 0 0 0 0 255 0 255, 0 0 0 30 255 0 255; ; No run gets to location 1, and its rules meet at 30.
Apart by clock 2; 1 2 1 0 1 0, 10 0 14 0, 0 0 0 0 255 0 4, 0 0 0 0 255 5 255; ; They meet in clock 1 alone.
Both clocks at 4; 1 2 1 0 1 0, 10 0 14 0, 0 0 0 0 4 0 4, 0 0 0 4 255 4 255; ; Readings 4 and 4 satisfy both.
I-5 before I-6; 2 1 1 0 1 0, 14 0 14 0 28 0 7 0, 0 0 0 0 255 0 255, 0 0 0 0 255 0 255, 1 0 0 0 255 0 255; ; I-5 is tested over the whole sheet before I-6.
",
    )
}
