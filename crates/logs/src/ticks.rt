// What the ticks of a record stand for in a format.
ghost use Rattle.std.specs.Prelude.{◌≡◌, ◌≤◌};
ghost use Rattle.enforcement.specs.Limits.{max_date};
ghost use Rattle.logs.specs.Log.{date_of, ticks_of};

use crate::format::Format;

// The date that a record's ticks stand for, after an action at d.
pub fn date_of(f: Format, d: u64, ticks: u32) -> u64
    requires { d ≤ max_date }
    ensures { result ≡ date_of f d ticks }
{
    let n = u64::from(ticks);
    match f {
        Format::Dates => n,
        Format::Gaps => d + n,
    }
}

// The ticks that stand for date t, after an action at d.
pub fn ticks_of(f: Format, d: u64, t: u64) -> u32
    requires { (d ≤ t) × (t ≤ max_date) }
    ensures { result ≡ ticks_of f d t }
{
    match f {
        Format::Dates => t as u32,
        Format::Gaps => (t - d) as u32,
    }
}
