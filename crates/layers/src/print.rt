// Words and numbers on standard output.
use std::io;

pub fn word(rt: &impl Print, text: &[u8]) -> io::Result<()> {
    rt.write_all(text)
}

// A blank and a number.
pub fn number(rt: &impl Print, n: u64) -> io::Result<()> {
    print!(rt; " {n}")
}

pub fn date(rt: &impl Print, t: u32) -> io::Result<()> {
    number(rt, t as u64)
}

pub fn byte(rt: &impl Print, n: u8) -> io::Result<()> {
    number(rt, n as u64)
}

// A location, or another number, and two readings.
pub fn configuration(rt: &impl Print, l: u8, x: u8, y: u8) -> io::Result<()> {
    byte(rt, l)?;
    byte(rt, x)?;
    byte(rt, y)
}

// That a list is dead, and the lamp without its last command.
pub fn dead(rt: &impl Print, lit: bool) -> io::Result<()> {
    if lit {
        return word(rt, b"dead, lit\n");
    }
    word(rt, b"dead, dark\n")
}

// A truth value as 1 or 0, and the line's end.
pub fn truth(rt: &impl Print, b: bool) -> io::Result<()> {
    if b {
        return word(rt, b": 1\n");
    }
    word(rt, b": 0\n")
}
