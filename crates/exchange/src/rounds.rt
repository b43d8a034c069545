// A round of a direction: the presenter sends, the receiver takes the message and replies, the presenter takes the reply.
ghost use Rattle.std.specs.Prelude.{◌≡◌};
ghost use Rattle.centre.specs.Turn.{engine_of, call_of};
ghost use Rattle.exchange.specs.Round.{answer_of, round_of, answered, rounded};

use crate::round::Round;
use centre::call::{Order, perform, receive_call, reply_call};
use centre::end::Centre;

// The second half: some bytes reach the receiver, and what it writes goes back to the presenter, both at one time. Nothing
// was sent here, so that number is 0.
pub fn answered(
    presenter: Centre,
    receiver: Centre,
    time: u32,
    message: &[u8],
    reply: &mut [u8],
) -> Round
    ensures outcome { answer_of result reply.new ≡ answered time message.now reply.old (engine_of presenter) (engine_of receiver) }
    ensures unsent { result.sent ≡ 0 }
{
    let heard = receive_call(receiver, time, message, reply);
    if heard.number == 0 {
        let told = reply_call(presenter, time, &reply[..heard.written]);
        return Round {
            presenter: told.centre,
            receiver: heard.centre,
            sent: 0,
            received: heard.number,
            replied: told.number,
        };
    }
    Round {
        presenter,
        receiver: heard.centre,
        sent: 0,
        received: heard.number,
        replied: 0,
    }
}

// A whole round. The message buffer is lent for what the presenter writes, the reply buffer for what the receiver writes;
// of each no more goes over the line than was written.
pub fn round(
    presenter: Centre,
    receiver: Centre,
    order: Order,
    part: &[u8],
    time: u32,
    message: &mut [u8],
    reply: &mut [u8],
) -> Round
    ensures { round_of result message.new reply.new ≡ rounded (call_of order part.now) time message.old reply.old (engine_of presenter) (engine_of receiver) }
{
    let turn = perform(presenter, order, part, message);
    if turn.number == 0 {
        return answered(turn.centre, receiver, time, &message[..turn.written], reply);
    }
    Round {
        presenter: turn.centre,
        receiver,
        sent: turn.number,
        received: 0,
        replied: 0,
    }
}
