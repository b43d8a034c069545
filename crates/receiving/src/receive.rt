// Receiving: a message of any bytes goes in, and the reply to it comes out in the line buffer.
ghost use Rattle.std.specs.Prelude.{◌≡◌, ◌≤◌, length};
ghost use Rattle.std.proofs.lemmas.List.Edits.{sets};
ghost use Rattle.message.specs.Limits.{largest_serial, reply_room};
ghost use Rattle.message.specs.Line.{whole_reply};
ghost use Rattle.session.specs.Parties.{receiving_route, Direction};
ghost use Rattle.session.specs.Receiving.{is_next, receive_refusal, receive};
ghost use Rattle.session.specs.Premise.{Sound, Carried, KeptBeside};
ghost use Rattle.session.specs.Outcome.{held, seen_at, with_receiving};
ghost use Rattle.calls.specs.Inner.Arrival.{Told};
ghost use Rattle.receiving.specs.Said.{received_said};

use crate::arrival::read_message;
use crate::earned::receiving_route;
use crate::handling::{Handled, handle_if};
use crate::hearer::Hearer;
use calls::time::time_refusal;
use codes::answer::Answer;
use codes::refusal::Refusal;
use message::envelope::{ENVELOPE_BYTES, Envelope, REPLY_ROOM};
use message::line::write_reply;
use session::running::Running;
use session::session::Session;

// What receiving gives. A message that earns a code is not refused: its reply, which carries the code, is the first
// `written` bytes of the line buffer.
#[derive(Clone, Copy)]
pub struct Received {
    pub answer: Answer,
    pub written: usize,
    pub session: Session,
}

// The same, and the running totals that it leaves, also where it is refused (`outcome` and `premise`).
#[derive(Clone, Copy)]
pub struct ReceiveOutcome {
    pub running: Running,
    pub received: Received,
}

// Whether a message of any bytes is a new one or the last again, at any time.
#[tactic(auto, using(calls::proofs::Laws::Answer::refusal_ends, calls::proofs::Laws::Answer::none_leads_on, calls::proofs::Laws::Arrival::told_behind), unfolding(session::specs::Receiving::receive_refusal))]
fn arrived(session: &Session, time: u32, message: &[u8], room: usize) -> Result<bool, Refusal>
    requires { session.now.receiving.serial ≤ largest_serial }
    ensures { Told (receive_refusal time message.now room session.now) (is_next message.now session.now.receiving.serial) result }
{
    let route = receiving_route(session.parties);
    time_refusal(time, session.seen, session.close)?;
    read_message(message, route, session.receiving.serial, room)
}

// Writes the reply that is kept after a message, new or again, and gives what the call leaves.
fn replying(session: Session, time: u32, after: Handled, line: &mut [u8]) -> ReceiveOutcome
    requires { reply_room ≤ length line.old }
    ensures result { result ≡ record { running = after.running; received = record { answer = Ok tt; written = reply_room; session = seen_at time (with_receiving after.receiving session) } } }
    ensures line { line.new ≡ sets line.old 0 (whole_reply (record { route = receiving_route session.parties; serial = after.receiving.serial }) after.receiving.reply) }
{
    let receiving = after.receiving;
    let envelope = Envelope {
        route: receiving_route(session.parties),
        serial: receiving.serial,
    };
    write_reply(line, envelope, receiving.reply);
    ReceiveOutcome {
        running: after.running,
        received: Received {
            answer: Ok(()),
            written: REPLY_ROOM,
            session: Session {
                receiving,
                seen: time,
                ..session
            },
        },
    }
}

// Takes a message of any bytes and writes the reply to it.
pub fn receive(
    session: Session,
    running: Running,
    time: u32,
    message: &[u8],
    line: &mut [u8],
) -> ReceiveOutcome
    requires sound { Sound session }
    requires carried { Carried Direction.receiving session running }
    ensures outcome { received_said result.received result.running line.new ≡ receive time message.now (held session running line.old) }
    ensures premise { KeptBeside Direction.receiving session result.received.session result.running }
{
    match arrived(&session, time, message, line.len()) {
        Ok(next) => {
            let hearer = Hearer {
                parties: session.parties,
                running,
                receiving: session.receiving,
            };
            let after = handle_if(next, time, &message[ENVELOPE_BYTES..], &hearer);
            replying(session, time, after, line)
        }
        Err(refusal) => ReceiveOutcome {
            running,
            received: Received {
                answer: Err(refusal),
                written: 0,
                session,
            },
        },
    }
}
