// The accepted lots, and whether a new one repeats one of them.
#![tactic(auto, unfolding(session::specs::Course::kept))]

ghost use Rattle.std.specs.Prelude.{◌≡◌, ◌<◌, true, eqb};
ghost use Rattle.std.specs.List.{list_any};
ghost use Rattle.amounts.specs.Totals.{same};
ghost use Rattle.session.specs.declared.counters.Lot.{Lot};
ghost use Rattle.session.specs.Running.{stated};
ghost use Rattle.session.specs.Limits.{most_lots};
ghost use Rattle.session.specs.Course.{kept};
ghost use Rattle.receiving.specs.Inner.Earned.{ends_lot};

use amounts::Totals;
use session::counters::{Lot, Lots};
use session::effect::Effect;
use session::running::stated;

// Whether one of these lots has the number.
pub fn number_used(number: u16, lots: &[Lot]) -> bool
    ensures { result ≡ list_any (λ (l : Lot). eqb number l.number) lots.now }
{
    lots.iter().any(|lot| number == lot.number)
}

// Whether one of them has the totals.
pub fn totals_used(totals: Totals, lots: &[Lot]) -> bool
    ensures { result ≡ list_any (λ (l : Lot). same (stated l.gathered) totals) lots.now }
{
    lots.iter().any(|lot| stated(lot.gathered).same(totals))
}

// The places with one lot more, where it is accepted.
fn stored(lot: Lot, accepted: bool, count: usize, lots: Lots) -> Lots
    requires { accepted ≡ true → count < most_lots }
    ensures { result ≡ kept (Effect.LotTotal lot) accepted count lots }
{
    let mut places = lots;
    if accepted {
        places[count] = lot;
    }
    places
}

// The places after a message, with the code that was replied.
pub fn kept(effect: Effect, accepted: bool, count: usize, lots: Lots) -> Lots
    requires { accepted ≡ true → ends_lot effect ≡ true → count < most_lots }
    ensures { result ≡ kept effect accepted count lots }
{
    match effect {
        Effect::LotTotal(lot) => stored(lot, accepted, count, lots),
        Effect::Nothing | Effect::Header(_) | Effect::Detail(_) | Effect::SessionTotal => lots,
    }
}
