// Receiving, with the running totals of the received lot lent.
ghost use Rattle.std.specs.Prelude.{◌≡◌};
ghost use Rattle.session.specs.Parties.{Direction};
ghost use Rattle.session.specs.Receiving.{receive};
ghost use Rattle.session.specs.Premise.{Sound, Carried, KeptBeside};
ghost use Rattle.session.specs.Outcome.{held};
ghost use Rattle.receiving.specs.Said.{received_said};

use crate::leaving::leave;
use receiving::receive::Received;
use session::running::Running;
use session::session::Session;

// Takes a message of any bytes and writes the reply to it. A detail that it accepts is added to the running totals in place.
pub fn receive(
    session: Session,
    running: &mut Running,
    time: u32,
    message: &[u8],
    line: &mut [u8],
) -> Received
    requires sound { Sound session }
    requires carried { Carried Direction.receiving session running.old }
    ensures { (received_said result running.new line.new ≡ receive time message.now (held session running.old line.old)) × KeptBeside Direction.receiving session result.session running.new }
{
    let outcome = receiving::receive::receive(session, *running, time, message, line);
    leave(running, outcome.running);
    outcome.received
}
