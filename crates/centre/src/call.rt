// Every call on a centre that has a time, each in the same form, and one function for all of them.
ghost use Rattle.std.specs.Prelude.{◌≡◌, List, ℕ};
ghost use Rattle.session.specs.Sending.{Send};
ghost use Rattle.session.specs.Engine.{Call, performed, performed_by};
ghost use Rattle.session.specs.Parties.{Direction};
ghost use Rattle.session.specs.Premise.{KeptBeside};
ghost use Rattle.presenting.specs.Said.{send_said};
ghost use Rattle.centre.specs.Turn.{engine_of, turn_of, call_of};

use crate::end::Centre;
use crate::turn::Turn;
use calls::clock::clock;
use codes::answer::answer_number;
use presenting::answer::{SendOutcome, send_number, send_written};
use presenting::reply::take_reply;
use presenting::sending::{send_detail, send_header, send_lot_total, send_session_total};
use receiving::receive::receive;

// A call by its kind and its numbers. The documents of a detail, the message that is received and the reply that is taken
// stand in a slice beside it.
#[derive(Clone, Copy)]
pub enum Order {
    Header(u32, u32, u16, u16),
    Detail(u32, u8),
    LotTotal(u32),
    SessionTotal(u32),
    Receive(u32),
    Reply(u32),
    Clock(u32),
}

// What a send gives: it leaves the running totals of the presented lot as they were.
fn sent(c: Centre, outcome: SendOutcome) -> Turn
    requires { KeptBeside Direction.presenting c.session outcome.session c.presenting }
    ensures { (line : List ℕ) → turn_of result line ≡ performed_by Direction.presenting (send_said outcome c.presenting line) (engine_of c) }
{
    Turn {
        number: send_number(outcome.answer),
        written: send_written(outcome.answer),
        centre: c.with_presented(outcome.session, c.presenting),
    }
}

fn header_call(c: Centre, time: u32, moment: u32, office: u16, number: u16, line: &mut [u8]) -> Turn
    ensures { turn_of result line.new ≡ performed (Call.send time (Send.header moment office number)) line.old (engine_of c) }
{
    sent(
        c,
        send_header(c.session, time, moment, office, number, line),
    )
}

fn detail_call(c: Centre, time: u32, operation: u8, part: &[u8], line: &mut [u8]) -> Turn
    ensures { turn_of result line.new ≡ performed (Call.send time (Send.detail operation part.now)) line.old (engine_of c) }
{
    sent(
        c,
        send_detail(c.session, c.presenting, time, operation, part, line),
    )
}

fn lot_total_call(c: Centre, time: u32, line: &mut [u8]) -> Turn
    ensures { turn_of result line.new ≡ performed (Call.send time Send.lot_total) line.old (engine_of c) }
{
    sent(c, send_lot_total(c.session, c.presenting, time, line))
}

fn session_total_call(c: Centre, time: u32, line: &mut [u8]) -> Turn
    ensures { turn_of result line.new ≡ performed (Call.send time Send.session_total) line.old (engine_of c) }
{
    sent(c, send_session_total(c.session, time, line))
}

pub fn receive_call(c: Centre, time: u32, message: &[u8], line: &mut [u8]) -> Turn
    ensures { turn_of result line.new ≡ performed (Call.receive time message.now) line.old (engine_of c) }
{
    let outcome = receive(c.session, c.receiving, time, message, line);
    let received = outcome.received;
    Turn {
        number: answer_number(received.answer),
        written: received.written,
        centre: c.with_received(received.session, outcome.running),
    }
}

pub fn reply_call(c: Centre, time: u32, reply: &[u8]) -> Turn
    ensures { (line : List ℕ) → turn_of result line ≡ performed (Call.reply time reply.now) line (engine_of c) }
{
    let outcome = take_reply(c.session, c.presenting, time, reply);
    let called = outcome.called;
    Turn {
        number: answer_number(called.answer),
        written: 0,
        centre: c.with_presented(called.session, outcome.running),
    }
}

pub fn clock_call(c: Centre, time: u32) -> Turn
    ensures { (line : List ℕ) → turn_of result line ≡ performed (Call.clock time) line (engine_of c) }
{
    let ticked = clock(c.session, time);
    Turn {
        number: answer_number(ticked.answer),
        written: 0,
        centre: c.with_session(ticked.session),
    }
}

// Any of them. A match and no closure: an order is read from a script, and the definition `call_of` has the same cases.
pub fn perform(c: Centre, order: Order, bytes: &[u8], line: &mut [u8]) -> Turn
    ensures { turn_of result line.new ≡ performed (call_of order bytes.now) line.old (engine_of c) }
{
    match order {
        Order::Header(time, moment, office, number) => header_call(
            c, time, moment, office, number, line,
        ),
        Order::Detail(time, operation) => detail_call(c, time, operation, bytes, line),
        Order::LotTotal(time) => lot_total_call(c, time, line),
        Order::SessionTotal(time) => session_total_call(c, time, line),
        Order::Receive(time) => receive_call(c, time, bytes, line),
        Order::Reply(time) => reply_call(c, time, bytes),
        Order::Clock(time) => clock_call(c, time),
    }
}
