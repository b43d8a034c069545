// The reply call, with the running totals of the presented lot lent.
ghost use Rattle.std.specs.Prelude.{◌≡◌, List, ℕ};
ghost use Rattle.session.specs.Parties.{Direction};
ghost use Rattle.session.specs.Reply.{take_reply};
ghost use Rattle.session.specs.Premise.{Sound, Carried, KeptBeside};
ghost use Rattle.session.specs.Outcome.{held};
ghost use Rattle.calls.specs.Said.{called_said};

use crate::leaving::leave;
use calls::called::Called;
use session::running::Running;
use session::session::Session;

// Takes a reply of any bytes. A detail that it accepts is added to the running totals in place.
pub fn take_reply(session: Session, running: &mut Running, time: u32, reply: &[u8]) -> Called
    requires sound { Sound session }
    requires carried { Carried Direction.presenting session running.old }
    ensures { ((line : List ℕ) → called_said result running.new line ≡ take_reply time reply.now (held session running.old line)) × KeptBeside Direction.presenting session result.session running.new }
{
    let outcome = presenting::reply::take_reply(session, *running, time, reply);
    leave(running, outcome.running);
    outcome.called
}
