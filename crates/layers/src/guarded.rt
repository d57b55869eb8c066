// What the layers above the load check are given: a well-formed sheet, and a configuration of it.
ghost use Rattle.std.specs.Prelude.{◌≡◌, true, [], ◌∷◌};
ghost use Rattle.enforcement.specs.Loading.{WellFormed};
ghost use Rattle.retimer.specs.Readings.{Standing};

use retimer::limits::Monitor;
use retimer::sheet;

// Whether a sheet has no refusal of its own.
fn loads(s: &[u8]) -> bool
    ensures { result ≡ true → WellFormed s.now }
{
    sheet::check(s, 0).is_ok()
}

// Whether a location and readings are a configuration of a well-formed sheet. With one clock the second reading counts as saturated.
pub fn stands(s: &[u8], l: u8, x: u8, y: u8) -> bool
    ensures { result ≡ true → WellFormed s.now × Standing s.now l (x ∷ y ∷ []) }
{
    if !loads(s) {
        return false;
    }
    if s[0] <= l {
        return false;
    }
    if Monitor::TOP < x {
        return false;
    }
    if Monitor::TOP < y {
        return false;
    }
    if s[1] == 1 {
        return y == Monitor::TOP;
    }
    true
}

// Command 0 from location 0 to 1, with a reset of clock 1; command 1 from 1 to 2 with clock 1 at 3 to 5 and clock 2 up to 10; accepting 2.
pub const TWO_CLOCKS: [u8; 32] =
    *b"\x03\x02\x02\x00\x04\x00\x12\x00\x07\x00\x19\x00\x07\x00\x20\x00\x00\x00\x00\x01\x01\x00\xff\x00\xff\x01\x02\x00\x03\x05\x00\x0a";
