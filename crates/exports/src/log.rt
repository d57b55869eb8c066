// The conversion of logs. An answer is handed out as 0, or minus the number after "I-".
ghost use Rattle.std.specs.Prelude.{◌≡◌};
ghost use Rattle.logs.specs.declared.format.Format.TheVariants.{Dates, Gaps};
ghost use Rattle.logs.specs.Conversion.{outcome_of, sound_of};
ghost use Rattle.exports.specs.Results.{result_of, ExportRight};

use logs::convert;
use logs::convert::Refusal;
use logs::format::Format;

// The number that an answer is handed out as; the C interface has no Result.
fn result_of(a: Result<(), Refusal>) -> i32
    ensures { result ≡ result_of (outcome_of a) }
{
    match a {
        Ok(()) => 0,
        Err(Refusal::Length) => -9,
        Err(Refusal::Late(_)) => -10,
        Err(Refusal::Falling(_)) => -11,
    }
}

// A log in dates to one in gaps. The C interface: each format has functions of its own.
#[unsafe(no_mangle)]
pub extern "C" fn retimer_log_to_gaps(log: &[u8], out: &mut [u8]) -> i32
    ensures { ExportRight Dates log.now out.old result out.new }
{
    result_of(convert::convert(Format::Dates, log, out))
}

// A log in gaps to one in dates.
#[unsafe(no_mangle)]
pub extern "C" fn retimer_log_to_dates(log: &[u8], out: &mut [u8]) -> i32
    ensures { ExportRight Gaps log.now out.old result out.new }
{
    result_of(convert::convert(Format::Gaps, log, out))
}

// How many whole records of a log in dates, from the first on, are without fault: the place of the first faulty one, if there is one.
#[unsafe(no_mangle)]
pub extern "C" fn retimer_log_sound_dates(log: &[u8]) -> usize
    ensures { result ≡ sound_of Dates log.now }
{
    convert::sound(Format::Dates, log)
}

// How many whole records of a log in gaps, from the first on, are without fault: the place of the first faulty one, if there is one.
#[unsafe(no_mangle)]
pub extern "C" fn retimer_log_sound_gaps(log: &[u8]) -> usize
    ensures { result ≡ sound_of Gaps log.now }
{
    convert::sound(Format::Gaps, log)
}
