// The sheet that the desk program's input begins with, and the loading date that stands before it in other input.
ghost use Rattle.std.specs.Prelude.{◌≡◌, ◌≤◌};
ghost use Rattle.enforcement.specs.Limits.{max_size};
ghost use Rattle.retimer.specs.Calls.{LoadRight};
ghost use Rattle.marking.specs.Marks.{size_in, sheet_in, date_in};

use retimer::bytes;
use retimer::limits::Monitor;
use retimer::monitor::Loaded;

// The bytes that give the sheet's length, and these with the largest sheet.
pub const HEAD: usize = 2;

pub const FRONT: usize = HEAD + Monitor::SIZE;

// The bytes of a loading date.
pub const DATE: usize = 4;

// The loading date in the input's first bytes; 0 where they are too few.
pub fn date_in(input: &[u8]) -> u32
    ensures { result ≡ date_in input.now }
{
    if input.len() < DATE {
        return 0;
    }
    bytes::double_word_at(input, 0)
}

// The sheet's length by the input's first bytes; 0 where they are too few, or no sheet is so long.
pub fn size_in(input: &[u8]) -> usize
    ensures { (result ≡ size_in input.now) × (result ≤ max_size) }
{
    if input.len() < HEAD {
        return 0;
    }
    let size = bytes::word_at(input, 0);
    if Monitor::SIZE < size {
        return 0;
    }
    size
}

// Loads the sheet that the input begins with at a date; too few bytes are no sheet.
#[inline(never)]
pub fn load(input: &[u8], loaded: u32) -> Loaded
    ensures { LoadRight (sheet_in input.now) loaded result }
{
    let end = HEAD + size_in(input);
    if input.len() < end {
        return Monitor::load(&input[..0], loaded);
    }
    Monitor::load(&input[HEAD..end], loaded)
}
