// A session of one centre: both of its directions, the last seen time and the close.
ghost use Rattle.std.specs.Prelude.{◌≡◌};
ghost use Rattle.session.specs.Start.{no_lots, unsent, unheard, fresh, start_said, start};
ghost use Rattle.session.specs.Engine.{with_empty, Ready};

use crate::counters::{Counters, Lot, Lots};
use crate::effect::Effect;
use crate::limits::MOST_LOTS;
use crate::parties::{Parties, nobody, parties_good, parties_of};
use crate::running::empty;
use codes::answer::Answer;
use codes::code::Code;
use codes::refusal::Refusal;
use message::reply::{Reply, ReplyOperation};

// How a session was closed, if it was.
#[derive(Clone, Copy)]
pub enum Close {
    Open,
    Ordered,
    Forced,
}

// The direction in which the centre presents: the last serial that it used, what awaits a reply, what was accepted, and
// whether the session total was.
#[derive(Clone, Copy)]
pub struct Presenting {
    pub serial: u32,
    pub pending: Effect,
    pub counters: Counters,
    pub ended: bool,
}

// The direction in which it receives: the last serial that it took, the reply to it, what was accepted, whether the session
// total was, and the accepted lots, of which as many are meant as the counters say.
#[derive(Clone, Copy)]
pub struct Receiving {
    pub serial: u32,
    pub reply: Reply,
    pub counters: Counters,
    pub ended: bool,
    pub lots: Lots,
}

// All that a centre keeps of an evening, but for the running totals of its open lots, which are lent with each call. What a call asks of
// it, `Sound`, and of it with running totals, `Carried`, are predicates with names and no ghost fields: they are the one premise of the
// paper, shown as such in the contract of each call, and the second is of two values. `Centre`, above, has both as its invariant.
#[derive(Clone, Copy)]
pub struct Session {
    pub parties: Parties,
    pub presenting: Presenting,
    pub receiving: Receiving,
    pub seen: u32,
    pub close: Close,
}

// What a start gives: a session beside 24 too, since `premise` of the start promises one.
#[derive(Clone, Copy)]
pub struct Started {
    pub answer: Answer,
    pub session: Session,
}

// No lot is open and none accepted.
fn no_lots() -> Counters
    ensures { result ≡ no_lots }
{
    Counters {
        current: None,
        lots: 0,
        gathered: empty(),
    }
}

// A direction in which nothing was sent.
fn unsent() -> Presenting
    ensures { result ≡ unsent }
{
    Presenting {
        serial: 0,
        pending: Effect::Nothing,
        counters: no_lots(),
        ended: false,
    }
}

// A direction in which nothing was received. Its reply is never written: a first message has serial 1.
fn unheard() -> Receiving
    ensures { result ≡ unheard }
{
    let none = Lot {
        number: 0,
        gathered: empty(),
    };
    Receiving {
        serial: 0,
        reply: Reply {
            operation: ReplyOperation::Other,
            code: Code::Accepted,
        },
        counters: no_lots(),
        ended: false,
        lots: [none; MOST_LOTS],
    }
}

// A session of these parties before any call.
fn fresh(parties: Parties, close: Close) -> Session
    ensures { result ≡ fresh parties close }
{
    Session {
        parties,
        presenting: unsent(),
        receiving: unheard(),
        seen: 0,
        close,
    }
}

impl Session {
    // The hours, in seconds of the day: 21:00, 23:15, half a minute later, and 23:30. No header is sent from the preclose
    // on, and none accepted from the cut-off on; between them lies the margin for clocks that differ.
    pub const OPENING: u32 = 75_600;

    pub const PRECLOSE: u32 = 83_700;

    pub const CUT_OFF: u32 = 83_730;

    pub const CLOSE: u32 = 84_600;

    // A session just started; or 24. What stands beside 24 the paper leaves open: a session that is closed, was never
    // started, and meets the premise of every call.
    pub fn start(date: u32, own: u16, partner: u16, represented: &[u16]) -> Started
        ensures outcome { start_said result ≡ start date own partner represented.now }
        ensures premise { Ready (with_empty result.session) }
    {
        if parties_good(date, own, partner, represented) {
            return Started {
                answer: Ok(()),
                session: fresh(parties_of(date, own, partner, represented), Close::Open),
            };
        }
        Started {
            answer: Err(Refusal::WrongStart),
            session: fresh(nobody(), Close::Forced),
        }
    }
}
