// The clock call, and how a session closes.
ghost use Rattle.std.specs.Prelude.{◌≡◌, cond, List, ℕ};
ghost use Rattle.session.specs.declared.running.Running.{Running};
ghost use Rattle.session.specs.Hours.{at_close};
ghost use Rattle.session.specs.Clock.{ticked, clock};
ghost use Rattle.session.specs.Premise.{Sound, Kept};
ghost use Rattle.session.specs.Outcome.{held};
ghost use Rattle.calls.specs.Said.{called_said};

use crate::called::Called;
use crate::time::clock_refusal;
use session::hours::at_close;
use session::session::{Close, Session};

// The close after a call at this time: at the hour in order where both directions have ended, else forced; before it as it
// was.
fn close_at(time: u32, ended: bool, close: Close) -> Close
    ensures { result ≡ cond (at_close time) (cond ended Close.Ordered Close.Forced) close }
{
    if at_close(time) {
        if ended {
            return Close::Ordered;
        }
        return Close::Forced;
    }
    close
}

// The session after a clock call that is not refused.
fn ticked(session: Session, time: u32) -> Session
    ensures { result ≡ ticked time session }
{
    let ended = session.presenting.ended & session.receiving.ended;
    Session {
        seen: time,
        close: close_at(time, ended, session.close),
        ..session
    }
}

// The last seen time moves, and at the hour the close. No running totals are asked for: whatever is carried is carried on.
pub fn clock(session: Session, time: u32) -> Called
    requires { Sound session }
    ensures outcome { (t : Running) (line : List ℕ) → called_said result t line ≡ clock time (held session t line) }
    ensures premise { Kept session result.session }
{
    let answer = clock_refusal(time, session.seen, session.close);
    if let Err(_) = answer {
        return Called { answer, session };
    }
    Called {
        answer,
        session: ticked(session, time),
    }
}
