// A direction from its first lot to its session total.
ghost use Rattle.std.specs.Prelude.{◌≡◌, true};
ghost use Rattle.exchange.specs.Cursors.{unmoved, within};
ghost use Rattle.exchange.specs.Course.{ends_of, standing_of, lots_made, direction_made};

use crate::lot::send_lot;
use crate::progress::{Lines, Progress, one_more};
use crate::round::Round;
use centre::call::Order;
use outgoing::{Cursors, Trays};
use session::limits::MOST_LOTS;
use session::session::Session;

// The last order number of a direction: as many lots as can be accepted.
const LAST_NUMBER: u16 = MOST_LOTS as u16;

// Sends lots, numbered from 1, until one moves no cursor: the trays are empty, or its details were refused.
fn send_lots(p: &mut Progress, trays: Trays, lines: &mut Lines)
    requires { within trays.presentations.now trays.returns.now p.old.cursors ≡ true }
    ensures outcome { standing_of p.new lines.new.message lines.new.reply ≡ lots_made trays.entry.presentations.now trays.entry.returns.now (standing_of p.old lines.old.message lines.old.reply) }
    ensures within { within trays.entry.presentations.now trays.entry.returns.now p.new.cursors ≡ true }
{
    for number in 1..=LAST_NUMBER {
        let before = p.cursors;
        send_lot(p, number, trays, lines);
        if before == p.cursors {
            return;
        }
    }
}

// All that one end presents to the other: its lots, and the session total.
pub fn present(ends: Round, trays: Trays, lines: &mut Lines) -> Round
    requires { within trays.presentations.now trays.returns.now unmoved ≡ true }
    ensures { ends_of result lines.new.message lines.new.reply ≡ direction_made trays.entry.presentations.now trays.entry.returns.now (ends_of ends lines.old.message lines.old.reply) }
{
    let mut at = Progress {
        last: ends,
        cursors: Cursors::default(),
    };
    send_lots(&mut at, trays, lines);
    let total = Order::SessionTotal(Session::OPENING);
    one_more(&mut at.last, total, &[], lines);
    at.last
}
