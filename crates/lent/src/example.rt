// How a caller uses a lent form: the running totals stand in a local, which is lent for one call. The contract speaks of no
// reference to running totals, so that whoever calls this function is proved as any other caller.
ghost use Rattle.std.specs.Prelude.{◌≡◌};
ghost use Rattle.session.specs.Parties.{Direction};
ghost use Rattle.session.specs.Receiving.{receive};
ghost use Rattle.session.specs.Premise.{Sound, Carried, KeptBeside};
ghost use Rattle.session.specs.Outcome.{held};
ghost use Rattle.receiving.specs.Said.{received_said};

use crate::receive::receive;
use receiving::receive::ReceiveOutcome;
use session::running::Running;
use session::session::Session;

// Takes a message, with running totals that come and go by value. It promises what receiving by value promises.
pub fn receive_with_local(
    session: Session,
    running: Running,
    time: u32,
    message: &[u8],
    line: &mut [u8],
) -> ReceiveOutcome
    requires sound { Sound session }
    requires carried { Carried Direction.receiving session running }
    ensures { (received_said result.received result.running line.new ≡ receive time message.now (held session running line.old)) × KeptBeside Direction.receiving session result.received.session result.running }
{
    let mut totals = running;
    let received = receive(session, &mut totals, time, message, line);
    ReceiveOutcome {
        running: totals,
        received,
    }
}
