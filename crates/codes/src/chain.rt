// A chain of codes, read from the left: the first that applies is the code of a message.
ghost use Rattle.std.specs.Prelude.{◌≡◌, eqb};
ghost use Rattle.codes.specs.Chain.{◌when◌, ◌orelse◌};
ghost use Rattle.codes.specs.Code.{code_number};

use crate::code::Code;

// Whether a message of this code is accepted.
pub fn is_accepted(c: Code) -> bool
    ensures { result ≡ eqb (code_number c) 0 }
{
    c == Code::Accepted
}

// A code where its test holds.
pub fn when(c: Code, test: bool) -> Code
    ensures { code_number result ≡ (code_number c when test) }
{
    if test { c } else { Code::Accepted }
}

// The first of two that applies.
pub fn or_else(first: Code, rest: Code) -> Code
    ensures { code_number result ≡ (code_number first orelse code_number rest) }
{
    if is_accepted(first) { rest } else { first }
}
