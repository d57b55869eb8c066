// A log to the other format.
ghost use Rattle.std.specs.Prelude.{◌≡◌, ◌%◌, length};
ghost use Rattle.logs.specs.Conversion.{outcome_of, check_from, dates_in, output, sound_of, converted, ConvertRight};

use crate::format::Format;
use crate::record::Record;
use crate::{format, record, ticks};
use retimer::limits::Monitor;

// The last date.
const LAST: u64 = Monitor::LATEST as u64;

// Why a log is refused. A refusal for a record has its place, from 0.
#[derive(Clone, Copy)]
pub enum Refusal {
    // I-9: a length that is no multiple of 5, or an output of another length.
    Length,
    // I-10: a date, or a sum of gaps, above the last date.
    Late(usize),
    // I-11: a date below the one before it.
    Falling(usize),
}

// The answer that the records of a log give; bytes left over are passed over.
fn check_records(f: Format, log: &[u8]) -> Result<(), Refusal>
    ensures { outcome_of result ≡ check_from 0 0 (dates_in f log.now) }
{
    let mut before: u64 = 0;
    for k in 0..log.len() / record::SIZE {
        let date = ticks::date_of(f, before, record::at(log, k).ticks);
        if LAST < date {
            return Err(Refusal::Late(k));
        }
        if date < before {
            return Err(Refusal::Falling(k));
        }
        before = date;
    }
    Ok(())
}

// How many of the whole records of a log, from the first on, are without fault: the place of the first faulty one, if there is one. No record is refused for a length.
pub fn sound(f: Format, log: &[u8]) -> usize
    ensures { result ≡ sound_of f log.now }
{
    match check_records(f, log) {
        Ok(()) | Err(Refusal::Length) => log.len() / record::SIZE,
        Err(Refusal::Late(k) | Refusal::Falling(k)) => k,
    }
}

// Writes a log in the other format.
fn write(f: Format, log: &[u8], out: &mut [u8])
    requires { (length log.now % 5 ≡ 0) × ((length out.old ≡ length log.now) × (check_from 0 0 (dates_in f log.now) ≡ converted)) }
    ensures { out.new ≡ output f log.now }
{
    let g = format::other(f);
    let mut before: u64 = 0;
    for k in 0..log.len() / record::SIZE {
        let r = record::at(log, k);
        let date = ticks::date_of(f, before, r.ticks);
        let written = Record {
            ticks: ticks::ticks_of(g, before, date),
            action: r.action,
        };
        record::put(out, k, written);
        before = date;
    }
}

// Converts a log to the other format, into an output of the same length. A refusal leaves the output as it is.
pub fn convert(f: Format, log: &[u8], out: &mut [u8]) -> Result<(), Refusal>
    ensures { ConvertRight f log.now out.old result out.new }
{
    if log.len() % record::SIZE != 0 {
        return Err(Refusal::Length);
    }
    if out.len() != log.len() {
        return Err(Refusal::Length);
    }
    check_records(f, log)?;
    write(f, log, out);
    Ok(())
}
