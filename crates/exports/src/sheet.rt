// Sheets: whether one loads, and two as one. A refusal is handed out as minus the number after "I-".
ghost use Rattle.std.specs.Prelude.{◌≡◌};
ghost use Rattle.enforcement.specs.Loading.{check};
ghost use Rattle.retimer.specs.Reasons.{reason_of};
ghost use Rattle.product.specs.Joining.{outcome_of};
ghost use Rattle.exports.specs.Sheets.{reason_result, check_result, join_result, Short, JoinExportRight};

use product::join;
use product::join::Refusal;
use retimer::reason::Reason;
use retimer::sheet;

// The number that a sheet's own refusal is handed out as; the C interface has no enum.
fn reason_result(r: Reason) -> i32
    ensures { result ≡ reason_result (reason_of r) }
{
    match r {
        Reason::I1 => -1,
        Reason::I2 => -2,
        Reason::I3 => -3,
        Reason::I4 => -4,
        Reason::I5 => -5,
        Reason::I6 => -6,
        Reason::I7 => -7,
        Reason::I8 => -8,
        Reason::S1 => -9,
        Reason::S2 => -10,
        Reason::S3 => -11,
        Reason::S4 => -12,
        Reason::S5 => -13,
    }
}

// The number that an answer is handed out as; the C interface has no Result.
fn join_result(a: Result<usize, Refusal>) -> i32
    requires { Short (outcome_of a) }
    ensures { result ≡ join_result (outcome_of a) }
{
    match a {
        Ok(n) => n as i32,
        Err(Refusal::Length) => -9,
        Err(Refusal::First(r) | Refusal::Second(r)) => reason_result(r),
        Err(Refusal::Actions) => -12,
        Err(Refusal::Size) => -13,
        Err(Refusal::Transitions) => -14,
    }
}

// Why a sheet does not load, at date 0; 0 where it does.
#[unsafe(no_mangle)]
pub extern "C" fn retimer_sheet_check(sheet: &[u8]) -> i32
    ensures { result ≡ check_result (check sheet.now 0) }
{
    match sheet::check(sheet, 0) {
        Ok(_) => 0,
        Err(r) => reason_result(r),
    }
}

// Two sheets as one, into an output of 518 bytes; the answer is the joined sheet's length.
#[unsafe(no_mangle)]
pub extern "C" fn retimer_sheets_join(first: &[u8], second: &[u8], out: &mut [u8]) -> i32
    ensures { JoinExportRight first.now second.now out.old result out.new }
{
    join_result(join::join(first, second, out))
}
