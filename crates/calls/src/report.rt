// The report, which is never refused and changes nothing.
#![tactic(auto, unfolding(session::specs::Report::report))]

ghost use Rattle.std.specs.Prelude.{◌≡◌};
ghost use Rattle.amounts.specs.Inner.Fits.{DifferenceFits};
ghost use Rattle.session.specs.Running.{stated};
ghost use Rattle.session.specs.Report.{tally, awaited, positions, report};
ghost use Rattle.session.specs.Premise.{Sound};

use amounts::difference::{commission_difference, nominal_difference};
use session::counters::Counters;
use session::effect::Effect;
use session::report::{Awaited, Positions, Report, Tally};
use session::running::{Running, stated};
use session::session::Session;

// The accepted lots of a direction.
fn tally(counters: Counters) -> Tally
    ensures { result ≡ tally counters }
{
    Tally {
        lots: counters.lots,
        gathered: counters.gathered,
    }
}

// What awaits a reply, if it is a total.
fn awaited(pending: Effect) -> Awaited
    ensures { result ≡ awaited pending }
{
    match pending {
        Effect::LotTotal(lot) => Awaited::LotTotal(lot),
        Effect::SessionTotal => Awaited::SessionTotal,
        Effect::Nothing | Effect::Header(_) | Effect::Detail(_) => Awaited::Neither,
    }
}

// What was presented less what was received.
fn positions(presented: Running, received: Running) -> Positions
    requires nominal_fits { DifferenceFits (stated presented).nominal.0 (stated received).nominal.0 }
    requires commission_fits { DifferenceFits (stated presented).commission.0 (stated received).commission.0 }
    ensures { result ≡ positions (stated presented) (stated received) }
{
    let ours = stated(presented);
    let theirs = stated(received);
    Positions {
        nominal: nominal_difference(ours.nominal, theirs.nominal),
        commission: commission_difference(ours.commission, theirs.commission),
    }
}

// Both directions, the close, the positions, and what is awaited.
pub fn report(session: Session) -> Report
    requires { Sound session }
    ensures { result ≡ report session }
{
    let presented = session.presenting.counters;
    let received = session.receiving.counters;
    Report {
        presented: tally(presented),
        received: tally(received),
        close: session.close,
        positions: positions(presented.gathered, received.gathered),
        awaited: awaited(session.presenting.pending),
    }
}
