// The bytes of the product's header and pairs.
ghost use Rattle.std.specs.Prelude.{◌≡◌, ◌++◌, ◌+◌, ◌*◌, ◌≤◌, ◌<◌, length};
ghost use Rattle.enforcement.specs.Automaton.{locations};
ghost use Rattle.retimer.specs.Bytes.{Wrote};
ghost use Rattle.product.specs.Encoding.{word_bytes, accepting_set, header_bytes, pairs_from};
ghost use Rattle.product.specs.Product.{location_at, all_locations, product, Joinable};

use crate::{count, location};
use retimer::{bytes, locations};

// Whether location l is accepting: both that it stands for are.
fn accepts(first: &[u8], second: &[u8], l: usize) -> bool
    requires { (Joinable first.now second.now) × (l < locations first.now * locations second.now) }
    ensures { result ≡ (location_at first.now second.now l).accepting }
{
    let both = location::of(first, second, l);
    locations::has(bytes::word_at(first, 4) as u16, both.first)
        && locations::has(bytes::word_at(second, 4) as u16, both.second)
}

// The accepting locations, the first one's bit lowest.
fn accepting_set(first: &[u8], second: &[u8]) -> usize
    requires { Joinable first.now second.now }
    ensures { (result ≡ accepting_set (all_locations first.now second.now)) × (result < 65536) }
{
    let mut set: usize = 0;
    for l in (0..location::count(first, second)).rev() {
        set *= 2;
        if accepts(first, second, l) {
            set += 1;
        }
    }
    set
}

// The header.
pub fn put_header(first: &[u8], second: &[u8], out: &mut [u8]) -> usize
    requires { (Joinable first.now second.now) × (6 ≤ length out.old) }
    ensures { Wrote out.old 0 (header_bytes (product first.now second.now)) out.new result }
{
    let [low, high] = (accepting_set(first, second) as u16).to_le_bytes();
    let header = [
        first[0] * second[0],
        first[1] + second[1],
        first[2],
        first[3] * second[0] + second[3],
        low,
        high,
    ];
    bytes::put(out, 0, &header)
}

// The pair of a location: where its transitions begin, and how many bytes they take.
fn put_pair(out: &mut [u8], at: usize, place: usize, size: usize) -> usize
    requires { (place < 65536) × ((size < 65536) × (at + 4 ≤ length out.old)) }
    ensures { Wrote out.old at (word_bytes place ++ word_bytes size) out.new result }
{
    let end = bytes::put(out, at, &(place as u16).to_le_bytes());
    bytes::put(out, end, &(size as u16).to_le_bytes())
}

// The pairs.
pub fn put_pairs(first: &[u8], second: &[u8], out: &mut [u8], at: usize) -> usize
    requires { (Joinable first.now second.now) × (at + 4 * (locations first.now * locations second.now) ≤ length out.old) }
    ensures { Wrote out.old at (pairs_from (6 + 4 * (locations first.now * locations second.now)) (all_locations first.now second.now)) out.new result }
{
    let count = location::count(first, second);
    let mut end = at;
    let mut place = 6 + 4 * count;
    for l in 0..count {
        let size = 7 * count::at(first, second, l);
        end = put_pair(out, end, place, size);
        place += size;
    }
    end
}
