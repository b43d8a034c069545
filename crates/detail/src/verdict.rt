// What is decided on a detail: a code, and the totals where the code accepts.
ghost use Rattle.std.specs.Prelude.{◌≡◌};
ghost use Rattle.amounts.specs.Totals.{zeros};
ghost use Rattle.codes.specs.Code.{code_number};
ghost use Rattle.detail.specs.Inner.Verdict.{judged, if_accepted};

use amounts::Totals;
use codes::code::Code;
use document::found::Found;

// A code beside the totals, and no Result: 00 is one of the codes of a reply, and a refusal has totals too, which are zeros.
#[derive(Clone, Copy)]
pub struct Verdict {
    pub code: Code,
    pub totals: Totals,
}

// A code that accepts nothing.
pub fn refused(code: Code) -> Verdict
    ensures { (result.code ≡ code) × (result.totals ≡ zeros) }
{
    Verdict {
        code,
        totals: Totals::zeros(),
    }
}

// The first of 01, 03, 06 and 44 that a document earns, or 00 and the totals.
pub fn judge(found: Found) -> Verdict
    ensures code { code_number result.code ≡ judged found.fields found.amounts found.served found.something }
    ensures totals { result.totals ≡ if_accepted (code_number result.code) found.totals }
{
    if !found.fields {
        return refused(Code::WrongField);
    }
    if !found.amounts {
        return refused(Code::WrongAmount);
    }
    if !found.served {
        return refused(Code::WrongDrawee);
    }
    if !found.something {
        return refused(Code::ForNothing);
    }
    Verdict {
        code: Code::Accepted,
        totals: found.totals,
    }
}
