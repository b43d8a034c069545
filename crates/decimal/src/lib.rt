// Numbers as decimal text. What the words mean stands in specs/.
#![tactic(auto)]

ghost use Rattle.std.specs.Prelude.{◌≡◌, ◌+◌, ◌≤◌, length};
ghost use Rattle.std.proofs.lemmas.List.Edits.{sets};
ghost use Rattle.decimal.specs.Decimal.{decimal, behind_space, most_digits, most_behind_space};

use packed::writing::copy;

// No number of 64 bits has more digits.
pub const MOST_DIGITS: usize = 20;

// Writes a number from `at` on, without zeros in front, and answers where the next byte goes; every other byte keeps its value.
pub fn put_decimal(line: &mut [u8], at: usize, value: u64) -> usize
    requires { at + most_digits ≤ length line.old }
    ensures written { line.new ≡ sets line.old at (decimal value) }
    ensures next { result ≡ at + length (decimal value) }
    ensures short { result ≤ at + most_digits }
{
    let mut digits = [0u8; MOST_DIGITS];
    let count = io::decimal(value, &mut digits);
    copy(line, at, &digits[..count]);
    at + count
}

// The same behind a space.
pub fn put_number(line: &mut [u8], at: usize, value: u64) -> usize
    requires { at + most_behind_space ≤ length line.old }
    ensures written { line.new ≡ sets line.old at (behind_space value) }
    ensures next { result ≡ at + length (behind_space value) }
    ensures short { result ≤ at + most_behind_space }
{
    line[at] = b' ';
    put_decimal(line, at + 1, value)
}
