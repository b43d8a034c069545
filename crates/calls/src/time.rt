// The refusals by the clock, which every call with a time begins with.
#![tactic(auto, using(crate::proofs::Laws::Answer::refusal_ends, crate::proofs::Laws::Answer::none_leads_on), unfolding(session::specs::Time::clock_refusal, session::specs::Time::time_refusal))]

ghost use Rattle.std.specs.Prelude.{◌≡◌};
ghost use Rattle.codes.specs.Answer.{answer_number};
ghost use Rattle.session.specs.Time.{is_closed, clock_refusal, time_refusal};

use crate::answer::refused_when;
use codes::answer::Answer;
use codes::refusal::Refusal;
use session::hours::{past_day, within_hours};
use session::session::Close;

// Whether the session was closed, in whatever way.
fn is_closed(close: Close) -> bool
    ensures { result ≡ is_closed close }
{
    !matches!(close, Close::Open)
}

// Of a clock call.
pub fn clock_refusal(time: u32, seen: u32, close: Close) -> Answer
    ensures { answer_number result ≡ clock_refusal time seen close }
{
    refused_when(Refusal::TimePastDay, past_day(time))?;
    refused_when(Refusal::Closed, is_closed(close))?;
    refused_when(Refusal::EarlierTime, time < seen)
}

// Of every other call.
pub fn time_refusal(time: u32, seen: u32, close: Close) -> Answer
    ensures { answer_number result ≡ time_refusal time seen close }
{
    clock_refusal(time, seen, close)?;
    refused_when(Refusal::OutsideHours, !within_hours(time))
}
