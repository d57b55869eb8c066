// How a log tells when its actions are.
ghost use Rattle.std.specs.Prelude.{◌≡◌};
ghost use Rattle.logs.specs.Log as log;

// By dates, or by gaps: the ticks since the action before.
#[derive(Clone, Copy)]
pub enum Format {
    Dates,
    Gaps,
}

// The other format.
pub fn other(f: Format) -> Format
    ensures { result ≡ log.other f }
{
    match f {
        Format::Dates => Format::Gaps,
        Format::Gaps => Format::Dates,
    }
}
