// The records of a log in bytes: four bytes of a date or gap, low byte first, and the action.
ghost use Rattle.std.specs.Prelude.{◌≡◌, ◌++◌, ◌+◌, ◌*◌, ◌%◌, ◌≤◌, length, take, drop};
ghost use Rattle.logs.specs.Log.{record_at, record_bytes};

use retimer::bytes;

// An action, with its date or its gap.
#[derive(Clone, Copy)]
pub struct Record {
    pub ticks: u32,
    pub action: u8,
}

// The bytes of a record.
pub const SIZE: usize = 5;

// The record at a place.
pub fn at(log: &[u8], k: usize) -> Record
    requires { 5 * k + 5 ≤ length log.now }
    ensures { result ≡ record_at log.now k }
{
    let i = SIZE * k;
    Record {
        ticks: bytes::double_word_at(log, i),
        action: log[i + 4],
    }
}

// Puts a record at a place; the rest is as before.
pub fn put(out: &mut [u8], k: usize, r: Record)
    requires { 5 * k + 5 ≤ length out.old }
    ensures { out.new ≡ take (5 * k) out.old ++ record_bytes r ++ drop (5 * k + 5) out.old }
{
    let [lowest, low, high, highest] = r.ticks.to_le_bytes();
    bytes::put(out, SIZE * k, &[lowest, low, high, highest, r.action]);
}
