// Fields of a line of text.
ghost use Rattle.std.specs.Prelude.{◌≡◌, ◌&&◌, ◌≤◌, ◌<◌, ℕ, true, false, min, leb, length, slice_index, IfSome, unwrap_or};
ghost use Rattle.drafting.specs.Places.{find_from, is_capital, capital_of};

// The first place from a place on at which a test holds; the text's end if there is none.
pub fn first<P: Fn(u8) -> bool>(text: &[u8], from: usize, holds: P) -> usize
    requires { P.IsAlwaysCallable holds }
    ensures within { result ≤ length text.now }
    ensures after { min from (length text.now) ≤ result }
    ensures before { (k : ℕ) → from ≤ k → k < result → P.post holds (slice_index text.now k) false }
    ensures found { result < length text.now → P.post holds (slice_index text.now result) true }
{
    for i in from..text.len() {
        if holds(text[i]) {
            return i;
        }
    }
    text.len()
}

// The place of the first mark from a place on; the text's end if there is none.
pub fn find(text: &[u8], from: usize, mark: u8) -> usize
    ensures { (result ≤ length text.now) × ((min from (length text.now) ≤ result) × (result ≡ find_from text.now from mark)) }
{
    first(text, from, |b| b == mark)
}

// Whether a byte lies from low to high.
pub fn within(low: u8, high: u8, b: u8) -> bool
    ensures { result ≡ leb low b && leb b high }
{
    low <= b && b <= high
}

// The first capital letter of a text.
pub fn capital(text: &[u8]) -> Option<u8>
    ensures letter { IfSome result (λ b. is_capital b ≡ true) }
    ensures first { unwrap_or result 0 ≡ capital_of text.now }
{
    let place = first(text, 0, |b| within(b'A', b'Z', b));
    text.get(place).copied()
}
