// Where the transitions of a location lie.
ghost use Rattle.std.specs.Prelude.{◌<◌};
ghost use Rattle.enforcement.specs.Automaton.{locations};
ghost use Rattle.enforcement.specs.Loading.{WellFormed};
ghost use Rattle.product.specs.Rows.{RowRight};

use retimer::bytes;

// So many transitions, the first one's bytes at a place.
#[derive(Clone, Copy)]
pub struct Row {
    pub first: usize,
    pub count: usize,
}

// The transitions of a location.
pub fn of(s: &[u8], l: usize) -> Row
    requires { (WellFormed s.now) × (l < locations s.now) }
    ensures { RowRight s.now l result }
{
    let pair = 6 + 4 * l;
    Row {
        first: bytes::word_at(s, pair),
        count: bytes::word_at(s, pair + 2) / 7,
    }
}
