// A chain of refusals, read from the top: the first that applies is the answer of a call.
ghost use Rattle.std.specs.Prelude.{◌≡◌};
ghost use Rattle.codes.specs.Answer.{answer_number};
ghost use Rattle.codes.specs.Chain.{◌when◌};
ghost use Rattle.codes.specs.Refusal.{refusal_number};

use codes::answer::Answer;
use codes::refusal::Refusal;

// A refusal where its test holds.
pub fn refused_when(refusal: Refusal, test: bool) -> Answer
    ensures { answer_number result ≡ (refusal_number refusal when test) }
{
    if test {
        return Err(refusal);
    }
    Ok(())
}
