// The plain cases of the bound test: which comparison a low and a high make, and each of the four.
ghost use Rattle.std.specs.Prelude.{◌≡◌};
ghost use Rattle.enforcement.specs.Comparison.{at_least, exactly, at_most, between, pick, says};
ghost use Rattle.retimer.specs.Comparisons.{comparison_of};

// The cases, each named for what is compared.
#[derive(Clone, Copy)]
pub enum Comparison {
    AtLeast,
    Exactly,
    AtMost,
    Between,
}

// The first case that fits: no upper bound, low equal to high, low zero, and the rest. A high of 255 is the sheet's byte for none, as `pick` has it.
pub fn of(low: u8, high: u8) -> Comparison
    ensures { comparison_of result ≡ pick low high }
{
    if high == 255 {
        return Comparison::AtLeast;
    }
    if low == high {
        return Comparison::Exactly;
    }
    if low == 0 {
        return Comparison::AtMost;
    }
    Comparison::Between
}

// At least low, where there is no upper bound.
pub fn at_least(low: u8, x: u8) -> bool
    ensures { result ≡ says at_least low 255 x }
{
    low <= x
}

// Exactly low, which is the high too.
pub fn exactly(low: u8, x: u8) -> bool
    ensures { result ≡ says exactly low low x }
{
    x == low
}

// At most high, where the low is zero.
pub fn at_most(high: u8, x: u8) -> bool
    ensures { result ≡ says at_most 0 high x }
{
    x <= high
}

// Between low and high, both included.
pub fn between(low: u8, high: u8, x: u8) -> bool
    ensures { result ≡ says between low high x }
{
    low <= x && x <= high
}
