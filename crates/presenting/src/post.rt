// What every send begins with: whether anything stops it; and where nothing does, the next serial is used, its envelope
// stands in the line buffer, and the message awaits its reply. The counters stay.
ghost use Rattle.std.specs.Prelude.{◌≡◌, ◌≤◌, ◌<◌, length};
ghost use Rattle.std.proofs.lemmas.List.Edits.{sets};
ghost use Rattle.message.specs.Limits.{envelope_bytes, largest_serial};
ghost use Rattle.message.specs.Envelope.{written_envelope};
ghost use Rattle.session.specs.Parties.{presenting_route};
ghost use Rattle.codes.specs.Code.{code_number};
ghost use Rattle.session.specs.Sending.{next_envelope, sent};
ghost use Rattle.presenting.specs.Inner.Begun.{Begun};

use crate::answer::{SendOutcome, send_answer, send_number};
use codes::code::Code;
use message::envelope::{Envelope, Kind, write_envelope};
use message::route::Route;
use session::effect::Effect;
use session::parties::Parties;
use session::session::{Presenting, Session};

// The route of what the centre presents. That of what it receives is a definition of its own (session/specs/Parties).
pub fn presenting_route(p: Parties) -> Route
    ensures { result ≡ presenting_route p }
{
    Route {
        date: p.date,
        presenting: p.own,
        receiving: p.partner,
    }
}

// The session with this message sent.
fn sent(session: Session, time: u32, effect: Effect) -> Session
    requires { session.presenting.serial < largest_serial }
    ensures { result ≡ sent time effect session }
{
    Session {
        presenting: Presenting {
            serial: session.presenting.serial + 1,
            pending: effect,
            ..session.presenting
        },
        seen: time,
        ..session
    }
}

// Writes the next envelope at the start of the line buffer, and gives the session after it.
fn post(session: Session, time: u32, effect: Effect, line: &mut [u8]) -> Session
    requires serial_lt_largest_serial { session.presenting.serial < largest_serial }
    requires envelope_bytes_in_bounds { envelope_bytes ≤ length line.old }
    ensures session { result ≡ sent time effect session }
    ensures line { line.new ≡ sets line.old 0 (written_envelope Kind.Message (next_envelope session)) }
{
    let envelope = Envelope {
        route: presenting_route(session.parties),
        serial: session.presenting.serial + 1,
    };
    write_envelope(line, Kind::Message, envelope);
    sent(session, time, effect)
}

// Begins a message of so many bytes, whose own code is this.
pub fn begin(
    session: Session,
    time: u32,
    code: Code,
    bytes: usize,
    effect: Effect,
    line: &mut [u8],
) -> SendOutcome
    requires { envelope_bytes ≤ bytes }
    ensures { Begun time (code_number code) bytes effect session line.old line.new result }
{
    let answer = send_answer(session, time, code, bytes, line.len());
    if send_number(answer) != 0 {
        return SendOutcome { answer, session };
    }
    SendOutcome {
        answer,
        session: post(session, time, effect, line),
    }
}
