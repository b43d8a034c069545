// A whole evening: the near end presents all that lies in its trays, then the far end; both close on the clock and report.
// include/line.h says how C calls it. A refusal within the evening stops nothing but its own lot: the driver ends the lot,
// and where no document moved, the direction.
ghost use Rattle.std.specs.Prelude.{◌≡◌, true, List, ℕ};
ghost use Rattle.codes.specs.Answer.{answer_number};
ghost use Rattle.centre.specs.Turn.{engine_of};
ghost use Rattle.exchange.specs.Cursors.{unmoved, within};
ghost use Rattle.exchange.specs.Course.{ends_of, across, both_directions};
ghost use Rattle.exchange.specs.Evening.{closed_side, evening, trays_code, exchanged};

use crate::direction::present;
use crate::fixed::{DATE, FAR, NEAR};
use crate::progress::Lines;
use crate::round::Round;
use crate::shown::{Evening, Side, no_side, side_of};
use calls::report::report;
use centre::call::clock_call;
use centre::end::Centre;
use codes::answer::Answer;
use codes::refusal::refusal_number;
use message::envelope::{MESSAGE_ROOM, REPLY_ROOM};
use outgoing::{Cursors, Trays};
use session::session::Session;

// The report of an end after its clock call at the close.
fn closed(c: Centre) -> Side
    ensures { result ≡ closed_side (engine_of c) }
{
    let turn = clock_call(c, Session::CLOSE);
    side_of(report(turn.centre.session))
}

// The other direction.
fn across(ends: Round) -> Round
    ensures { (message reply : List ℕ) → ends_of result message reply ≡ across (ends_of ends message reply) }
{
    Round {
        presenter: ends.receiver,
        receiver: ends.presenter,
        sent: 0,
        received: 0,
        replied: 0,
    }
}

// Both directions, one after the other: the presenter's trays, and then those of the other end.
fn both_directions(ends: Round, trays: Trays, other: Trays, lines: &mut Lines) -> Round
    requires here_unmoved { within trays.presentations.now trays.returns.now unmoved ≡ true }
    requires there_unmoved { within other.presentations.now other.returns.now unmoved ≡ true }
    ensures { ends_of result lines.new.message lines.new.reply ≡ both_directions trays.entry.presentations.now trays.entry.returns.now other.entry.presentations.now other.entry.returns.now (ends_of ends lines.old.message lines.old.reply) }
{
    let first = present(ends, trays, lines);
    present(across(first), other, lines)
}

// The evening over trays that are in order.
fn evening(near: Trays, far: Trays) -> Evening
    requires near_unmoved { within near.presentations.now near.returns.now unmoved ≡ true }
    requires far_unmoved { within far.presentations.now far.returns.now unmoved ≡ true }
    ensures { result ≡ evening near.entry.presentations.now near.entry.returns.now far.entry.presentations.now far.entry.returns.now }
{
    let mut lines = Lines {
        message: [0; MESSAGE_ROOM],
        reply: [0; REPLY_ROOM],
    };
    let first = Round {
        presenter: Centre::started(DATE, NEAR, FAR),
        receiver: Centre::started(DATE, FAR, NEAR),
        sent: 0,
        received: 0,
        replied: 0,
    };
    let last = both_directions(first, near, far, &mut lines);
    Evening {
        code: 0,
        near_side: closed(last.receiver),
        far_side: closed(last.presenter),
    }
}

// Whether the trays of both ends are in order.
#[tactic(auto, using(calls::proofs::Laws::Answer::refusal_ends, calls::proofs::Laws::Answer::none_leads_on), unfolding(crate::specs::Evening::trays_code))]
fn check_trays(near: Trays, far: Trays) -> Answer
    ensures { answer_number result ≡ trays_code near.entry.presentations.now near.entry.returns.now far.entry.presentations.now far.entry.returns.now }
{
    near.check(Cursors::default())?;
    far.check(Cursors::default())
}

// A whole evening over the trays of two ends; or 25, where a tray is bad, with zeros beside it.
pub fn exchange(near: Trays, far: Trays) -> Evening
    ensures { result ≡ exchanged near.entry.presentations.now near.entry.returns.now far.entry.presentations.now far.entry.returns.now }
{
    match check_trays(near, far) {
        Ok(_) => evening(near, far),
        Err(refusal) => Evening {
            code: refusal_number(refusal),
            near_side: no_side(),
            far_side: no_side(),
        },
    }
}
