// Numbers read from bytes, and bytes put at a place.
ghost use Rattle.std.specs.Prelude.{◌≡◌, ◌+◌, ◌≤◌, ◌<◌, length};
ghost use Rattle.enforcement.specs.Automaton.{word};
ghost use Rattle.retimer.specs.Bytes.{double_word, Wrote};

// Two bytes, low byte first.
pub fn word_at(s: &[u8], i: usize) -> usize
    requires { i + 1 < length s.now }
    ensures { (result ≡ word s.now i) × (result < 65536) }
{
    usize::from(u16::from_le_bytes([s[i], s[i + 1]]))
}

// Four bytes, low byte first.
pub fn double_word_at(s: &[u8], i: usize) -> u32
    requires { i + 4 ≤ length s.now }
    ensures { result ≡ double_word s.now i }
{
    u32::from_le_bytes([s[i], s[i + 1], s[i + 2], s[i + 3]])
}

// Puts bytes at a place of a lent buffer; the rest is as before. Answers the place after them.
pub fn put(out: &mut [u8], at: usize, part: &[u8]) -> usize
    requires { at + length part.now ≤ length out.old }
    ensures { Wrote out.old at part.now out.new result }
{
    let end = at + part.len();
    out[at..end].copy_from_slice(part);
    end
}
