// The call that takes the reply to what is pending.
ghost use Rattle.std.specs.Prelude.{◌≡◌, List, ℕ, eqb};
ghost use Rattle.packed.specs.Part.{byte_at};
ghost use Rattle.packed.specs.Number.{byte_value};
ghost use Rattle.message.specs.Reply.{operation_byte};
ghost use Rattle.session.specs.Parties.{Direction};
ghost use Rattle.session.specs.Outcome.{silent, held};
ghost use Rattle.session.specs.Reply.{is_awaited, is_accepted, reply_order, reply_refusal, replied, take_reply};
ghost use Rattle.session.specs.Premise.{Sound, Carried, KeptBeside};
ghost use Rattle.calls.specs.Inner.Arrival.{Told};
ghost use Rattle.calls.specs.Said.{called_said};
ghost use Rattle.presenting.specs.Inner.Order.{of_body};

use crate::pending::{awaited_operation, is_pending};
use crate::post::presenting_route;
use calls::answer::refused_when;
use calls::called::Called;
use calls::course::{advance, ends};
use calls::time::time_refusal;
use codes::chain::is_accepted;
use codes::refusal::Refusal;
use message::envelope::{ENVELOPE_BYTES, Kind, read_envelope};
use message::reply::{ReplyOperation, operation_byte, read_reply};
use message::route::{Route, same_route};
use session::counters::Course;
use session::effect::Effect;
use session::running::Running;
use session::session::{Presenting, Session};

// What a reply call gives, and the running totals that it leaves, also where it is refused (`outcome` and `premise`).
#[derive(Clone, Copy)]
pub struct ReplyOutcome {
    pub running: Running,
    pub called: Called,
}

// Whether a reply is awaited, and it is this one.
#[tactic(auto, unfolding(session::specs::Reply::is_awaited))]
fn is_awaited(serial: u32, operation: ReplyOperation, p: Presenting) -> bool
    ensures { result ≡ is_awaited serial (operation_byte operation) p }
{
    is_pending(p.pending)
        & (serial == p.serial)
        & (operation_byte(operation) == operation_byte(awaited_operation(p.pending)))
}

// The body of a reply with this serial: whether its code accepts what was sent.
fn read_body(body: &[u8], serial: u32, p: Presenting) -> Result<bool, Refusal>
    ensures { Told (of_body body.now serial p) (eqb (byte_value (byte_at 4 body.now)) 0) result }
{
    let reply = read_reply(body)?;
    refused_when(
        Refusal::UnexpectedSerial,
        !is_awaited(serial, reply.operation, p),
    )?;
    Ok(is_accepted(reply.code))
}

// A whole reply.
fn read_whole(reply: &[u8], route: Route, p: Presenting) -> Result<bool, Refusal>
    ensures { Told (reply_order reply.now route p) (is_accepted reply.now) result }
{
    let envelope = read_envelope(reply, Kind::Reply)?;
    refused_when(Refusal::OtherSession, !same_route(envelope.route, route))?;
    read_body(&reply[ENVELOPE_BYTES..], envelope.serial, p)
}

// A whole reply, at any time.
#[tactic(auto, using(calls::proofs::Laws::Answer::refusal_ends, calls::proofs::Laws::Answer::none_leads_on, calls::proofs::Laws::Arrival::told_behind), unfolding(session::specs::Reply::reply_refusal))]
fn arrived(session: Session, time: u32, reply: &[u8]) -> Result<bool, Refusal>
    ensures { Told (reply_refusal time reply.now session) (is_accepted reply.now) result }
{
    time_refusal(time, session.seen, session.close)?;
    read_whole(reply, presenting_route(session.parties), session.presenting)
}

// What was pending is counted, with the code that was read.
fn replied(session: Session, running: Running, time: u32, accepted: bool) -> ReplyOutcome
    requires sound { Sound session }
    requires carried { Carried Direction.presenting session running }
    ensures { (line : List ℕ) → called_said result.called result.running line ≡ silent (replied time accepted (held session running line)) }
{
    let presenting = session.presenting;
    let pending = presenting.pending;
    let before = Course {
        counters: presenting.counters,
        running,
    };
    let after = advance(pending, accepted, before);
    let session = Session {
        presenting: Presenting {
            pending: Effect::Nothing,
            counters: after.counters,
            ended: presenting.ended | ends(pending, accepted),
            ..presenting
        },
        seen: time,
        ..session
    };
    ReplyOutcome {
        running: after.running,
        called: Called {
            answer: Ok(()),
            session,
        },
    }
}

// Takes a reply of any bytes. The line buffer is not asked for: a reply call writes nothing.
pub fn take_reply(session: Session, running: Running, time: u32, reply: &[u8]) -> ReplyOutcome
    requires sound { Sound session }
    requires carried { Carried Direction.presenting session running }
    ensures outcome { (line : List ℕ) → called_said result.called result.running line ≡ take_reply time reply.now (held session running line) }
    ensures premise { KeptBeside Direction.presenting session result.called.session result.running }
{
    match arrived(session, time, reply) {
        Ok(accepted) => replied(session, running, time, accepted),
        Err(refusal) => ReplyOutcome {
            running,
            called: Called {
                answer: Err(refusal),
                session,
            },
        },
    }
}
