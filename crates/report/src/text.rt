// Numbers as text at a place of a lent buffer. Each function answers the place after what it put.
ghost use Rattle.std.specs.Prelude.{◌++◌, ◌+◌, ◌≤◌, length};
ghost use Rattle.retimer.specs.Bytes.{Wrote};
ghost use Rattle.report.specs.Texts.{numeral};

use retimer::bytes::put;

// The most digits of a number.
pub const DIGITS: usize = 20;

// A number, in decimal digits.
pub fn put_number(out: &mut [u8], at: usize, n: u64) -> usize
    requires { at + 20 ≤ length out.old }
    ensures { Wrote out.old at (numeral n) out.new result }
{
    let mut digits = [0u8; DIGITS];
    let k = io::decimal(n, &mut digits);
    put(out, at, &digits[..k])
}

// A word and a number after it.
pub fn put_figure(out: &mut [u8], at: usize, word: &[u8], n: u64) -> usize
    requires { at + length word.now + 20 ≤ length out.old }
    ensures { Wrote out.old at (word.now ++ numeral n) out.new result }
{
    let end = put(out, at, word);
    put_number(out, end, n)
}
