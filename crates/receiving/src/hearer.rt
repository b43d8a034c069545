// Who hears a message: what a session and the running totals that are lent with it hold of the direction in which it receives.
ghost use Rattle.std.specs.Prelude.{◌≡◌, length};
ghost use Rattle.document.specs.Limits.{most_represented};
ghost use Rattle.receiving.specs.Inner.Lent.{Lent, lent_props};

use session::parties::Parties;
use session::running::Running;
use session::session::Receiving;

// The ghost fields hold what sums, places and the next serial need of the premise, and how long an array is, which a reference to
// the struct does not tell.
#[derive(Clone, Copy)]
pub struct Hearer {
    pub parties: Parties,
    pub running: Running,
    pub receiving: Receiving,
    ghost lent: { Lent parties running receiving } by { Prim.hlevel lent_props },
    ghost listed: { length parties.represented ≡ most_represented },
}
