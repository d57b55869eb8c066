// Two sheets as one.
ghost use Rattle.std.specs.Prelude.{◌≡◌, ◌++◌, ◌-◌, ◌≤◌, length, take, replicate};
ghost use Rattle.enforcement.specs.Limits.{max_size};
ghost use Rattle.enforcement.specs.Loading.{WellFormed};
ghost use Rattle.enforcement.specs.Loading as loading;
ghost use Rattle.product.specs.Product.{Joinable};
ghost use Rattle.product.specs.Joining.{of_first, of_second, own, fitting, output, outcome_of, JoinRight};

use crate::{count, header, location, transitions};
use retimer::limits::Monitor;
use retimer::reason::Reason;
use retimer::sheet;

// Why two sheets are not joined.
#[derive(Clone, Copy)]
pub enum Refusal {
    // I-9: an output of another length.
    Length,
    // The first sheet's own refusal, or the second's.
    First(Reason),
    Second(Reason),
    // I-12: different counts of actions.
    Actions,
    // I-13: more than two clocks in all, or too many locations.
    Size,
    // I-14: too many transitions.
    Transitions,
}

// The answer for two sheets that load: how many bytes the joined sheet has.
fn fitting(first: &[u8], second: &[u8]) -> Result<usize, Refusal>
    requires { (WellFormed first.now) × (WellFormed second.now) }
    ensures { outcome_of result ≡ fitting first.now second.now }
{
    if first[2] != second[2] {
        return Err(Refusal::Actions);
    }
    if 2 < first[1] + second[1] {
        return Err(Refusal::Size);
    }
    let locations = location::count(first, second);
    if Monitor::COUNT < locations {
        return Err(Refusal::Size);
    }
    let n = count::all(first, second);
    if Monitor::TRANSITIONS < n {
        return Err(Refusal::Transitions);
    }
    Ok(6 + 4 * locations + 7 * n)
}

// The answer for two sheets, and an output of the right length.
fn check(first: &[u8], second: &[u8]) -> Result<usize, Refusal>
    ensures { outcome_of result ≡ own of_first (loading.check first.now 0) (own of_second (loading.check second.now 0) (fitting first.now second.now)) }
{
    sheet::check(first, 0).map_err(Refusal::First)?;
    sheet::check(second, 0).map_err(Refusal::Second)?;
    fitting(first, second)
}

// Zeros from a place up to the end.
fn clear(out: &mut [u8], at: usize)
    requires { at ≤ length out.old }
    ensures { out.new ≡ take at out.old ++ replicate (length out.old - at) 0 }
{
    out[at..].fill(0);
}

// Writes the joined sheet, and zeros behind it.
fn write(first: &[u8], second: &[u8], out: &mut [u8])
    requires { (Joinable first.now second.now) × (length out.old ≡ max_size) }
    ensures { out.new ≡ output first.now second.now }
{
    let mut end = header::put_header(first, second, out);
    end = header::put_pairs(first, second, out, end);
    end = transitions::put_all(first, second, out, end);
    clear(out, end);
}

// Joins two sheets into an output of 518 bytes, and answers how many the joined sheet has. A refusal leaves the output as it is.
pub fn join(first: &[u8], second: &[u8], out: &mut [u8]) -> Result<usize, Refusal>
    ensures { JoinRight first.now second.now out.old result out.new }
{
    if out.len() != Monitor::SIZE {
        return Err(Refusal::Length);
    }
    let length = check(first, second)?;
    write(first, second, out);
    Ok(length)
}
