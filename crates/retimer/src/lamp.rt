// The lamp by the rule: lit where nothing can bring acceptance after the pending actions or, where none is pending, after any next action.
ghost use Rattle.std.specs.Prelude.{◌≡◌};
ghost use Rattle.enforcement.specs.Model.{compile};
ghost use Rattle.enforcement.specs.Monitor.{is_lit};
ghost use Rattle.retimer.specs.Readings.{located};
ghost use Rattle.retimer.specs.Optimum.{LampAsked};

use crate::{outlook, reach};

// Whether the lamp is lit, with these actions pending.
pub fn is_lit<'a>(s: &'a [u8], live: &'a [u8], cs: &'a [u8], l: u8, r: [u8; 2]) -> bool
    requires { LampAsked s.now live.now l r }
    ensures { result ≡ is_lit (compile s.now) (located l r) cs.now }
{
    if cs.len() == 0 {
        return outlook::none_next(s, live, l, r);
    }
    reach::is_dead(s, live, cs, l, r)
}
