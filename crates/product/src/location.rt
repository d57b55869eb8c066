// The locations of the product: each stands for one of each sheet.
ghost use Rattle.std.specs.Prelude.{◌≡◌, ◌*◌, ◌<◌};
ghost use Rattle.enforcement.specs.Automaton.{locations};
ghost use Rattle.enforcement.specs.Loading.{WellFormed};
ghost use Rattle.product.specs.Rows.{BothRight};

// A location of each sheet.
#[derive(Clone, Copy)]
pub struct Both {
    pub first: usize,
    pub second: usize,
}

// What location l stands for.
pub fn of(first: &[u8], second: &[u8], l: usize) -> Both
    requires { (WellFormed first.now) × ((WellFormed second.now) × (l < locations first.now * locations second.now)) }
    ensures { BothRight first.now second.now l result }
{
    let n = usize::from(second[0]);
    Both {
        first: l / n,
        second: l % n,
    }
}

// How many locations the product has.
pub fn count(first: &[u8], second: &[u8]) -> usize
    requires { (WellFormed first.now) × (WellFormed second.now) }
    ensures { result ≡ locations first.now * locations second.now }
{
    usize::from(first[0]) * usize::from(second[0])
}
