// How a direction stands between two rounds: the last one, with both ends in it, and the cursors of the presenter's trays.
ghost use Rattle.std.specs.Prelude.{◌≡◌};
ghost use Rattle.centre.specs.Turn.{call_of};
ghost use Rattle.exchange.specs.Course.{ends_of, round_made};

use crate::round::Round;
use crate::rounds::round;
use centre::call::Order;
use message::envelope::{MESSAGE_ROOM, REPLY_ROOM};
use outgoing::Cursors;
use session::session::Session;

#[derive(Clone, Copy)]
pub struct Progress {
    pub last: Round,
    pub cursors: Cursors,
}

// The two line buffers: what the presenter writes, and what the receiver does.
#[derive(Drop)]
pub struct Lines {
    pub message: [u8; MESSAGE_ROOM],
    pub reply: [u8; REPLY_ROOM],
}

// One more round, at the opening. Only a detail reads the bytes beside it. Both ends are changed in place: a centre has 2 kB.
pub fn one_more(ends: &mut Round, order: Order, bytes: &[u8], lines: &mut Lines)
    ensures { ends_of ends.new lines.new.message lines.new.reply ≡ round_made (call_of order bytes.now) (ends_of ends.old lines.old.message lines.old.reply) }
{
    *ends = round(
        ends.presenter,
        ends.receiver,
        order,
        bytes,
        Session::OPENING,
        &mut lines.message,
        &mut lines.reply,
    );
}
