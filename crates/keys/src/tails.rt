// One to four bytes left over, after no call and after one.
use crate::ask::ask_bytes;
use std::io;

pub fn all(rt: &impl Print) -> io::Result<()> {
    let a = course::sheet_a();
    ask_bytes(rt, b"Tail 1", &a, b"\xff")?;
    ask_bytes(rt, b"Tail 2", &a, b"\xff\x00")?;
    ask_bytes(rt, b"Tail 3", &a, b"\x00\x00\x00")?;
    ask_bytes(rt, b"Tail 4", &a, b"\x01\x02\x03\x04")?;
    // Five bytes are a call, here a collection at date 0.
    ask_bytes(rt, b"No tail", &a, b"\xff\x00\x00\x00\x00")?;
    ask_bytes(
        rt,
        b"A call and a tail",
        &a,
        b"\xff\x00\x00\x00\x00\xff\xff",
    )?;
    // The date's bytes are low first: 258 is 2 1 0 0.
    ask_bytes(
        rt,
        b"Low byte first",
        &a,
        b"\x00\x02\x01\x00\x00\xff\x02\x01\x00\x00",
    )
}
