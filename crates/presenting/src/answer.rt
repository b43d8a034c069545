// What a send answers.
#![tactic(auto, using(calls::proofs::Laws::Answer::refusal_ends, calls::proofs::Laws::Answer::none_leads_on))]

ghost use Rattle.std.specs.Prelude.{◌≡◌, cond, eqb};
ghost use Rattle.codes.specs.Answer.{answer_number};
ghost use Rattle.codes.specs.Code.{code_number};
ghost use Rattle.session.specs.Sending.{send_refusal};
ghost use Rattle.presenting.specs.declared.answer.Stop.TheVariants.{Refused};
ghost use Rattle.presenting.specs.Said.{send_number, send_written};
ghost use Rattle.presenting.specs.Inner.Order.{before_code, from_code};
ghost use Rattle.presenting.specs.Inner.Begun.{unstopped};

use crate::pending::is_pending;
use calls::answer::refused_when;
use calls::time::time_refusal;
use codes::answer::Answer;
use codes::chain::is_accepted;
use codes::code::{Code, code_number};
use codes::refusal::{Refusal, refusal_number};
use message::envelope::LARGEST_SERIAL;
use session::session::Session;

// Why a send wrote nothing: the presenter's own code stopped it, or it was refused.
#[derive(Clone, Copy)]
pub enum Stop {
    Stopped(Code),
    Refused(Refusal),
}

impl From<Refusal> for Stop {
    ghost from_gives = { λ refusal stop. stop ≡ Refused refusal };

    fn from(refusal: Refusal) -> Stop {
        Stop::Refused(refusal)
    }
}

// How many bytes of the message stand in the line buffer, or why none do.
pub type SendAnswer = Result<usize, Stop>;

// What a send gives, the session also where nothing is written, since `outcome` and `premise` of the sends speak of it there
// too. Running totals are not changed by it.
#[derive(Clone, Copy)]
pub struct SendOutcome {
    pub answer: SendAnswer,
    pub session: Session,
}

// The paper's number, 0 for a message that is written. What stops a send carries its number inside, so `as` does not give it.
pub fn send_number(answer: SendAnswer) -> u8
    ensures { result ≡ send_number answer }
{
    match answer {
        Ok(_) => 0,
        Err(Stop::Stopped(code)) => code_number(code),
        Err(Stop::Refused(refusal)) => refusal_number(refusal),
    }
}

// How many bytes it wrote.
pub fn send_written(answer: SendAnswer) -> usize
    ensures { result ≡ send_written answer }
{
    answer.unwrap_or(0)
}

// Whether nothing stopped a send. It asks the number and not `is_ok`: the type has a stop with code 00 too, whose number is 0.
pub fn is_unstopped(o: SendOutcome) -> bool
    ensures { result ≡ unstopped o.answer }
{
    send_number(o.answer) == 0
}

// What refuses a send before its own code.
fn ready(session: Session, time: u32) -> Answer
    ensures { answer_number result ≡ before_code time session }
{
    let presenting = session.presenting;
    time_refusal(time, session.seen, session.close)?;
    refused_when(Refusal::ReplyAwaited, is_pending(presenting.pending))?;
    refused_when(Refusal::NoSerialLeft, LARGEST_SERIAL <= presenting.serial)
}

// The answer of a send that nothing but its code or the room may stop.
fn unrefused(code: Code, bytes: usize, room: usize) -> SendAnswer
    ensures number { send_number result ≡ from_code (code_number code) bytes room }
    ensures written { send_written result ≡ cond (eqb (send_number result) 0) bytes 0 }
{
    if !is_accepted(code) {
        return Err(Stop::Stopped(code));
    }
    if room < bytes {
        return Err(Stop::Refused(Refusal::ShortBuffer));
    }
    Ok(bytes)
}

// The answer of a send whose own code is this, of so many bytes into a buffer of so many.
pub fn send_answer(session: Session, time: u32, code: Code, bytes: usize, room: usize) -> SendAnswer
    ensures number { send_number result ≡ send_refusal time (code_number code) bytes room session }
    ensures written { send_written result ≡ cond (eqb (send_number result) 0) bytes 0 }
{
    ready(session, time)?;
    unrefused(code, bytes, room)
}
