// What refuses a message before its body is looked at. What is found beside is whether the message is a new one or the last
// again.
ghost use Rattle.std.specs.Prelude.{suc, ◌≤◌, eqb};
ghost use Rattle.message.specs.Limits.{largest_serial};
ghost use Rattle.session.specs.Receiving.{is_next, receiving_order};
ghost use Rattle.calls.specs.Inner.Arrival.{Told};
ghost use Rattle.receiving.specs.Inner.Order.{of_envelope};

use calls::answer::refused_when;
use codes::refusal::Refusal;
use message::envelope::{Envelope, Kind, REPLY_ROOM, read_envelope};
use message::route::{Route, same_route};

// By its envelope: the way it goes, its serial, and the room for a reply.
#[tactic(auto, using(calls::proofs::Laws::Answer::refusal_ends, calls::proofs::Laws::Answer::none_leads_on))]
fn by_envelope(e: Envelope, route: Route, last: u32, room: usize) -> Result<bool, Refusal>
    requires { last ≤ largest_serial }
    ensures { Told (of_envelope e last room route) (eqb e.serial (suc last)) result }
{
    let next = e.serial == last + 1;
    refused_when(Refusal::OtherSession, !same_route(e.route, route))?;
    refused_when(Refusal::UnexpectedSerial, !((e.serial == last) | next))?;
    refused_when(Refusal::ShortBuffer, room < REPLY_ROOM)?;
    Ok(next)
}

// Of any bytes, in a direction of this route whose last serial is this.
pub fn read_message(message: &[u8], route: Route, last: u32, room: usize) -> Result<bool, Refusal>
    requires { last ≤ largest_serial }
    ensures { Told (receiving_order message.now last room route) (is_next message.now last) result }
{
    let envelope = read_envelope(message, Kind::Message)?;
    by_envelope(envelope, route, last, room)
}
