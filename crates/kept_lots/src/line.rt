// The line between the two ends: what one says the other hears and keeps, and the reply comes back or is lost.
use crate::keeping::{Kept, keep};
use crate::print::print_text;
use centre::call::{Order, perform};
use centre::end::Centre;
use exchange::round::Round;
use exchange::rounds::answered;
use message::envelope::{MESSAGE_ROOM, REPLY_ROOM};
use packed::pieces::piece_at;
use session::session::Session;
use std::io;

// 14 March 2028, as DDMMYY.
const DATE: u32 = 14_03_28;

// Where a reply has its code.
const CODE: usize = REPLY_ROOM - 1;

// 0081, which presents, and 0072, which receives.
pub fn both_started() -> Round {
    Round {
        presenter: Centre::started(DATE, 81, 72),
        receiver: Centre::started(DATE, 72, 81),
        sent: 0,
        received: 0,
        replied: 0,
    }
}

// The reply's code, as it travels.
fn print_reply(rt: &impl Print, code: u8) -> io::Result<()> {
    print_text(rt, "reply ")?;
    println!(rt; "{code:02x}")
}

// A message arrives and so does its reply.
fn hear(
    rt: &impl Print,
    presenter: Centre,
    receiver: Centre,
    message: &[u8],
    kept: &mut Kept,
) -> io::Result<Round> {
    let mut reply = [0u8; REPLY_ROOM];
    let next = answered(presenter, receiver, Session::OPENING, message, &mut reply);
    print_reply(rt, reply[CODE])?;
    keep(rt, receiver, next.receiver, message, kept)?;
    Ok(next)
}

// Room for a message; what lies in it at first does not count.
fn message_room() -> [u8; MESSAGE_ROOM] {
    [0u8; MESSAGE_ROOM]
}

// A message and its reply. Where the reply is lost, the presenter has not heard it and says the same bytes again.
pub fn say(
    rt: &impl Print,
    ends: Round,
    order: Order,
    part: &[u8],
    lost: bool,
    kept: &mut Kept,
) -> io::Result<Round> {
    let mut message = message_room();
    let turn = perform(ends.presenter, order, part, &mut message);
    let sent = piece_at(&message, 0, turn.written);
    if lost {
        print_text(rt, "lost ")?;
    }
    let first = hear(rt, turn.centre, ends.receiver, sent, kept)?;
    if lost {
        return hear(rt, turn.centre, first.receiver, sent, kept);
    }
    Ok(first)
}
