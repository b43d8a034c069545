// The four calls that send a message. Each stands whole at the start of the line buffer; nothing is counted before its
// reply. What they share is `begin`; with a trait of bodies each would need a type and an impl for its one call of a writer.
ghost use Rattle.std.specs.Prelude.{◌≡◌};
ghost use Rattle.session.specs.declared.running.Running.{Running};
ghost use Rattle.session.specs.Parties.{Direction};
ghost use Rattle.session.specs.Sending.{open_number, Send, send_message};
ghost use Rattle.session.specs.Premise.{Sound, Carried, Kept, KeptBeside};
ghost use Rattle.session.specs.Outcome.{held};
ghost use Rattle.presenting.specs.Said.{send_said};

use crate::answer::{SendOutcome, is_unstopped};
use crate::post::{begin, presenting_route};
use crate::stops::{detail_stop, header_stop};
use calls::sequence::{lot_sequence, session_total_sequence};
use detail::writing::{write_detail, written_bytes};
use message::envelope::ENVELOPE_BYTES;
use message::header::{HEADER_BYTES, Header, write_header};
use message::total::{
    LOT_TOTAL_BYTES, SESSION_TOTAL_BYTES, Total, write_lot_total, write_session_total,
};
use packed::writing::packed_byte;
use session::counters::Lot;
use session::effect::Effect;
use session::running::{Running, stated};
use session::session::Session;

// Sends the header of a lot. The moment is hhmmsscc, what the header says of its time; no running totals are asked for.
pub fn send_header(
    session: Session,
    time: u32,
    moment: u32,
    centre: u16,
    number: u16,
    line: &mut [u8],
) -> SendOutcome
    requires { Sound session }
    ensures outcome { (t : Running) → send_said result t line.new ≡ send_message time (Send.header moment centre number) (held session t line.old) }
    ensures premise { Kept session result.session }
{
    let code = header_stop(time, moment, centre, number, session.presenting);
    let begun = begin(
        session,
        time,
        code,
        ENVELOPE_BYTES + HEADER_BYTES,
        Effect::Header(number),
        line,
    );
    if !is_unstopped(begun) {
        return begun;
    }
    let header = Header {
        time: moment,
        centre,
        number,
    };
    let route = presenting_route(session.parties);
    write_header(&mut line[ENVELOPE_BYTES..], route, header);
    begun
}

// Sends the documents of a part. They are read once and then copied once.
pub fn send_detail(
    session: Session,
    running: Running,
    time: u32,
    operation: u8,
    part: &[u8],
    line: &mut [u8],
) -> SendOutcome
    requires sound { Sound session }
    requires carried { Carried Direction.presenting session running }
    ensures outcome { send_said result running line.new ≡ send_message time (Send.detail operation part.now) (held session running line.old) }
    ensures premise { KeptBeside Direction.presenting session result.session running }
{
    let partner = session.parties.partner;
    let stop = detail_stop(operation, partner, part, running, session.presenting);
    let bytes = ENVELOPE_BYTES + written_bytes(part);
    let begun = begin(
        session,
        time,
        stop.code,
        bytes,
        Effect::Detail(stop.adds),
        line,
    );
    if !is_unstopped(begun) {
        return begun;
    }
    write_detail(
        &mut line[ENVELOPE_BYTES..],
        packed_byte(operation as u64),
        part,
    );
    begun
}

// The number of an open lot; 0 where there is none, as in the definition, and then no total is written.
fn open_number(lot: Option<u16>) -> u16
    ensures { result ≡ open_number lot }
{
    lot.unwrap_or(0)
}

// Sends the total of the open lot: what it has gathered.
pub fn send_lot_total(session: Session, running: Running, time: u32, line: &mut [u8]) -> SendOutcome
    requires sound { Sound session }
    requires carried { Carried Direction.presenting session running }
    ensures outcome { send_said result running line.new ≡ send_message time Send.lot_total (held session running line.old) }
    ensures premise { KeptBeside Direction.presenting session result.session running }
{
    let presenting = session.presenting;
    let number = open_number(presenting.counters.current);
    let code = lot_sequence(presenting.ended, presenting.counters.current);
    let lot = Lot {
        number,
        gathered: running,
    };
    let begun = begin(
        session,
        time,
        code,
        ENVELOPE_BYTES + LOT_TOTAL_BYTES,
        Effect::LotTotal(lot),
        line,
    );
    if !is_unstopped(begun) {
        return begun;
    }
    let total = Total {
        number,
        stated: stated(running),
    };
    write_lot_total(&mut line[ENVELOPE_BYTES..], total);
    begun
}

// Sends the session total: what the accepted lots have gathered. No running totals are asked for.
pub fn send_session_total(session: Session, time: u32, line: &mut [u8]) -> SendOutcome
    requires { Sound session }
    ensures outcome { (t : Running) → send_said result t line.new ≡ send_message time Send.session_total (held session t line.old) }
    ensures premise { Kept session result.session }
{
    let presenting = session.presenting;
    let counters = presenting.counters;
    let code = session_total_sequence(presenting.ended, counters.current);
    let begun = begin(
        session,
        time,
        code,
        ENVELOPE_BYTES + SESSION_TOTAL_BYTES,
        Effect::SessionTotal,
        line,
    );
    if !is_unstopped(begun) {
        return begun;
    }
    let total = Total {
        number: counters.lots as u16,
        stated: stated(counters.gathered),
    };
    write_session_total(&mut line[ENVELOPE_BYTES..], total);
    begun
}
