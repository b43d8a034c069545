// The receiving direction after a message.
ghost use Rattle.std.specs.Prelude.{◌≡◌, cond};
ghost use Rattle.receiving.specs.Inner.Handled.{new_receiving, new_running};

use crate::accepted::kept;
use crate::earned::earned;
use crate::hearer::Hearer;
use calls::course::{advance, ends};
use codes::chain::is_accepted;
use message::content::content_of;
use message::reply::{Reply, operation_for};
use session::counters::Course;
use session::running::Running;
use session::session::Receiving;

// The direction, and the running totals beside it.
#[derive(Clone, Copy)]
pub struct Handled {
    pub receiving: Receiving,
    pub running: Running,
}

// A new message: its serial becomes the last, its reply is kept, and what it does is counted.
fn handle(time: u32, body: &[u8], hearer: &Hearer) -> Handled
    ensures receiving { result.receiving ≡ new_receiving time body.now hearer.now.parties hearer.now.running hearer.now.receiving }
    ensures running { result.running ≡ new_running time body.now hearer.now.parties hearer.now.running hearer.now.receiving }
{
    let content = content_of(body);
    let found = earned(content, time, body, hearer);
    let accepted = is_accepted(found.code);
    let r = &hearer.receiving;
    let before = Course {
        counters: r.counters,
        running: hearer.running,
    };
    let after = advance(found.effect, accepted, before);
    let receiving = Receiving {
        serial: r.serial + 1,
        reply: Reply {
            operation: operation_for(content),
            code: found.code,
        },
        counters: after.counters,
        ended: r.ended | ends(found.effect, accepted),
        lots: kept(found.effect, accepted, r.counters.lots, r.lots),
    };
    Handled {
        receiving,
        running: after.running,
    }
}

// Of the last message again no body is read, and nothing is counted.
pub fn handle_if(next: bool, time: u32, body: &[u8], hearer: &Hearer) -> Handled
    ensures receiving { result.receiving ≡ cond next (new_receiving time body.now hearer.now.parties hearer.now.running hearer.now.receiving) hearer.now.receiving }
    ensures running { result.running ≡ cond next (new_running time body.now hearer.now.parties hearer.now.running hearer.now.receiving) hearer.now.running }
{
    if next {
        return handle(time, body, hearer);
    }
    Handled {
        receiving: hearer.receiving,
        running: hearer.running,
    }
}
