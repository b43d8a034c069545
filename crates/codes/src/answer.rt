// What a call answers: done, or turned away with everything left as it was.
ghost use Rattle.std.specs.Prelude.{◌≡◌};
ghost use Rattle.codes.specs.Answer.{answer_number};

use crate::refusal::{Refusal, refusal_number};

pub type Answer = Result<(), Refusal>;

// The paper's number, 0 where the call is done. A function and no `From`, which can't be written for the library's Result. Calendar,
// check digits and lot files have one each over their own refusals: a trait of these would need an impl for each, and a law.
pub fn answer_number(a: Answer) -> u8
    ensures { result ≡ answer_number a }
{
    match a {
        Ok(_) => 0,
        Err(refusal) => refusal_number(refusal),
    }
}
