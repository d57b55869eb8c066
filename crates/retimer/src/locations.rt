// Sets of locations, a bit for each.
ghost use Rattle.std.specs.Prelude.{◌≡◌, ◌<◌};
ghost use Rattle.enforcement.specs.Limits.{max_count};
ghost use Rattle.enforcement.specs.Automaton.{bit};
ghost use Rattle.retimer.specs.Locations.{Added};

// Whether a set has a location.
pub fn has(set: u16, l: usize) -> bool
    requires { l < max_count }
    ensures { result ≡ bit set l }
{
    (set >> l) % 2 == 1
}

// A set with a location added.
pub fn with(set: u16, l: usize) -> u16
    requires { l < max_count }
    ensures { Added set l result }
{
    set | (1u16 << l)
}
