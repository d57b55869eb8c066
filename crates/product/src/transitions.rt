// The bytes of the product's transitions, put one after the other.
ghost use Rattle.std.specs.Prelude.{◌+◌, ◌*◌, ◌≤◌, ◌<◌, length};
ghost use Rattle.enforcement.specs.Automaton.{locations, transition_at};
ghost use Rattle.retimer.specs.Bytes.{Wrote};
ghost use Rattle.product.specs.Encoding.{transition_bytes, transitions_bytes};
ghost use Rattle.product.specs.Product.{joint, joints_of, location_at, product_transitions, Joinable};
ghost use Rattle.product.specs.Rows.{row_transitions, FittingAt, FittingRow};

use crate::row::Row;
use crate::{location, row};
use retimer::bytes;

// The transition at p of the first sheet and that at q of the second, as one.
fn put_joint(first: &[u8], p: usize, second: &[u8], q: usize, out: &mut [u8], at: usize) -> usize
    requires { (Joinable first.now second.now) × ((FittingAt first.now p) × ((FittingAt second.now q) × (at + 7 ≤ length out.old))) }
    ensures { Wrote out.old at (transition_bytes (joint (locations second.now) (transition_at first.now p) (transition_at second.now q))) out.new result }
{
    let target = first[p + 1] * second[0] + second[q + 1];
    let resets = first[p + 2] + 2 * second[q + 2];
    let joint = [
        first[p],
        target,
        resets,
        first[p + 3],
        first[p + 4],
        second[q + 3],
        second[q + 4],
    ];
    bytes::put(out, at, &joint)
}

// The transition at p of the first sheet with each in a row of the second that is for the same action.
fn put_matching(first: &[u8], p: usize, second: &[u8], row: Row, out: &mut [u8], at: usize) -> usize
    requires { (Joinable first.now second.now) × ((FittingAt first.now p) × ((FittingRow second.now row) × (at + length (transitions_bytes (joints_of (locations second.now) (transition_at first.now p) (row_transitions second.now row))) ≤ length out.old))) }
    ensures { Wrote out.old at (transitions_bytes (joints_of (locations second.now) (transition_at first.now p) (row_transitions second.now row))) out.new result }
{
    let mut end = at;
    for i in 0..row.count {
        let q = row.first + 7 * i;
        if first[p] == second[q] {
            end = put_joint(first, p, second, q, out, end);
        }
    }
    end
}

// Those of the location l.
fn put_at(first: &[u8], second: &[u8], l: usize, out: &mut [u8], at: usize) -> usize
    requires { (Joinable first.now second.now) × ((l < locations first.now * locations second.now) × (at + length (transitions_bytes (location_at first.now second.now l).transitions) ≤ length out.old)) }
    ensures { Wrote out.old at (transitions_bytes (location_at first.now second.now l).transitions) out.new result }
{
    let both = location::of(first, second, l);
    let a = row::of(first, both.first);
    let b = row::of(second, both.second);
    let mut end = at;
    for i in 0..a.count {
        let p = a.first + 7 * i;
        end = put_matching(first, p, second, b, out, end);
    }
    end
}

// All of them, location by location.
pub fn put_all(first: &[u8], second: &[u8], out: &mut [u8], at: usize) -> usize
    requires { (Joinable first.now second.now) × (at + length (transitions_bytes (product_transitions first.now second.now)) ≤ length out.old) }
    ensures { Wrote out.old at (transitions_bytes (product_transitions first.now second.now)) out.new result }
{
    let mut end = at;
    for l in 0..location::count(first, second) {
        end = put_at(first, second, l, out, end);
    }
    end
}
