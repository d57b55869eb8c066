// Lists that are kept at the front of arrays.
ghost use Rattle.std.specs.Prelude.{◌≡◌, ◌∷◌, [], ◌++◌, map, ◌+◌, ◌-◌, ◌≤◌, ◌<◌, length, take, drop};
ghost use Rattle.enforcement.specs.Limits.{max_size, max_count, max_scheduled};
ghost use Rattle.enforcement.specs.History.{actions_of, place};
ghost use Rattle.retimer.specs.View.{request_of, slot_of};

use crate::limits::{Monitor, Request, Slot};

// The actions of the first n requests.
pub fn actions(requests: [Request; Monitor::COUNT], n: usize) -> [u8; Monitor::BATCH]
    requires { n ≤ max_count }
    ensures { take n result ≡ actions_of (map request_of (take n requests)) }
{
    let mut r = [0u8; Monitor::BATCH];
    for i in 0..n {
        r[i] = requests[i].action;
    }
    r
}

// The first n slots, and then the first k requests and one more at their dates.
pub fn with_slots(
    mut slots: [Slot; Monitor::SCHEDULED],
    n: usize,
    requests: [Request; Monitor::COUNT],
    k: usize,
    last: Request,
    ds: [u32; Monitor::BATCH],
) -> [Slot; Monitor::SCHEDULED]
    requires { (n + (k + 1) ≤ max_scheduled) × (k ≤ max_count) }
    ensures { (map slot_of (take (n + (k + 1)) result) ≡ map slot_of (take n slots) ++ place (map request_of (take k requests) ++ (request_of last ∷ [])) (take (k + 1) ds)) × (length result ≡ max_scheduled) }
{
    for i in 0..k {
        slots[n + i] = Slot {
            request: requests[i],
            date: ds[i],
        };
    }
    slots[n + k] = Slot {
        request: last,
        date: ds[k],
    };
    slots
}

// The first n slots without the first of them, at the front.
pub fn without_first(mut slots: [Slot; Monitor::SCHEDULED], n: usize) -> [Slot; Monitor::SCHEDULED]
    requires { (0 < n) × (n ≤ max_scheduled) }
    ensures { (take (n - 1) result ≡ drop 1 (take n slots)) × (length result ≡ max_scheduled) }
{
    slots.copy_within(1..n, 0);
    slots
}

// The bytes of a slice at the front of the largest automaton's bytes.
pub fn copied(s: &[u8]) -> [u8; Monitor::SIZE]
    requires { length s.now ≤ max_size }
    ensures { (take (length s.now) result ≡ s.now) × (length result ≡ max_size) }
{
    let mut r = [0u8; Monitor::SIZE];
    r[..s.len()].copy_from_slice(s);
    r
}
