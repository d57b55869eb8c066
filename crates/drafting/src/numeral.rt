// Decimal numbers in a text.
ghost use Rattle.std.specs.Prelude.{◌≡◌, true};
ghost use Rattle.drafting.specs.Numerals.{is_digit, first_digit, with_digit, numeral_at};

use crate::field;

// A number, and the place after its digits.
#[derive(Clone, Copy)]
pub struct Numeral {
    pub value: u64,
    pub end: usize,
}

fn is_digit(b: u8) -> bool
    ensures { result ≡ is_digit b }
{
    field::within(b'0', b'9', b)
}

// The place of the first digit from a place on; the text's end if there is none.
pub fn first_digit(text: &[u8], from: usize) -> usize
    ensures { result ≡ first_digit text.now from }
{
    field::first(text, from, |b| is_digit(b))
}

// A number with a digit after it. A digit that would make it too long is passed over.
fn with_digit(n: u64, b: u8) -> u64
    requires { is_digit b ≡ true }
    ensures { result ≡ with_digit n b }
{
    if 1_000_000_000_000 <= n {
        return n;
    }
    n * 10 + u64::from(b - b'0')
}

// The number whose digits begin at a place.
pub fn number_at(text: &[u8], from: usize) -> Numeral
    ensures { result ≡ numeral_at text.now from }
{
    let mut value: u64 = 0;
    for i in from..text.len() {
        let b = text[i];
        if !is_digit(b) {
            return Numeral { value, end: i };
        }
        value = with_digit(value, b);
    }
    Numeral {
        value,
        end: text.len(),
    }
}
