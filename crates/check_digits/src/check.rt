// The three checks: of a document's number, of an entity with its branch, of an account.
ghost use Rattle.std.specs.Prelude.{◌≡◌, not, ◌&&◌, eqb, ltb};
ghost use Rattle.codes.specs.Chain.{◌when◌};
ghost use Rattle.check_digits.specs.Weighted.{weighted_digit};
ghost use Rattle.check_digits.specs.Check.{of_number, of_branch, of_account, keyed_refusal, keyed_number};

use crate::weighted::weighted_digit;

const DOCUMENT_MODULUS: u64 = 7;

// The smallest numbers that are too long, with 8, 9 and 11 digits.
const TOO_LONG_NUMBER: u64 = 10_000_000;

const TOO_LONG_BRANCH: u64 = 100_000_000;

const TOO_LONG_ACCOUNT: u64 = 10_000_000_000;

// What was keyed is not right: the digit does not match, or the number is too long.
#[derive(Clone, Copy, PartialEq, Eq, Debug)]
pub struct KeyedRefusal;

// The paper's number of an answer. A function and no `From`, which can't be written for the library's Result.
pub fn keyed_number(answer: Result<(), KeyedRefusal>) -> u8
    ensures { result ≡ keyed_number answer }
{
    match answer {
        Ok(()) => 0,
        Err(KeyedRefusal) => 43,
    }
}

fn judged(passes: bool) -> Result<(), KeyedRefusal>
    ensures { keyed_number result ≡ (43 when not passes) }
{
    if passes { Ok(()) } else { Err(KeyedRefusal) }
}

// A document's number, of at most 7 digits: its check digit is what is left when it is divided by 7.
pub fn check_number(number: u64, digit: u8) -> Result<(), KeyedRefusal>
    ensures { keyed_number result ≡ keyed_refusal of_number number digit }
{
    judged(u64::from(digit) == number % DOCUMENT_MODULUS && number < TOO_LONG_NUMBER)
}

// What entity with branch and account have in common.
fn check_weighted(number: u64, too_long: u64, digit: u8) -> Result<(), KeyedRefusal>
    ensures { keyed_number result ≡ (43 when not (eqb digit (weighted_digit number) && ltb number too_long)) }
{
    judged(u64::from(digit) == weighted_digit(number) && number < too_long)
}

// An entity with its branch behind it, as one number of at most 8 digits.
pub fn check_branch(number: u64, digit: u8) -> Result<(), KeyedRefusal>
    ensures { keyed_number result ≡ keyed_refusal of_branch number digit }
{
    check_weighted(number, TOO_LONG_BRANCH, digit)
}

// An account, of at most 10 digits.
pub fn check_account(number: u64, digit: u8) -> Result<(), KeyedRefusal>
    ensures { keyed_number result ≡ keyed_refusal of_account number digit }
{
    check_weighted(number, TOO_LONG_ACCOUNT, digit)
}
