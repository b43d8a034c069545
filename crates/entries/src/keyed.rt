// Check digits for C: a number and the digit that a clerk has keyed with it.
ghost use Rattle.std.specs.Prelude.{◌≡◌};
ghost use Rattle.check_digits.specs.Check.{of_number, of_branch, of_account, keyed_refusal};

use check_digits::check::{check_account, check_branch, check_number, keyed_number};

// A document's number.
#[unsafe(no_mangle)]
pub extern "C" fn line_check_number(number: u64, digit: u8) -> u8
    ensures { result ≡ keyed_refusal of_number number digit }
{
    keyed_number(check_number(number, digit))
}

// An entity with its branch, as one number.
#[unsafe(no_mangle)]
pub extern "C" fn line_check_branch(number: u64, digit: u8) -> u8
    ensures { result ≡ keyed_refusal of_branch number digit }
{
    keyed_number(check_branch(number, digit))
}

// An account.
#[unsafe(no_mangle)]
pub extern "C" fn line_check_account(number: u64, digit: u8) -> u8
    ensures { result ≡ keyed_refusal of_account number digit }
{
    keyed_number(check_account(number, digit))
}
