// Decimal numbers of a script: digits alone, at most 20 of them, below 2^64.
ghost use Rattle.std.specs.Prelude.{◌≡◌, ◌-◌, ◌^◌, min};
ghost use Rattle.text.specs.Number.{decimal, are_decimal, is_sized, is_number, number_if};

use crate::digit::digit;

// The most digits, leading zeros too.
const MOST_DIGITS: usize = 20;

fn is_sized(count: usize) -> bool
    ensures { result ≡ is_sized count }
{
    (0 < count) & (count <= MOST_DIGITS)
}

// The value of digits, if it fits.
fn read_digits(word: &[u8]) -> Option<u64>
    ensures { result ≡ number_if (are_decimal word.now) (decimal word.now) }
{
    let mut value: u64 = 0;
    for b in word {
        let d = digit(*b)?;
        if 9 < d {
            return None;
        }
        value = value.checked_mul(10)?.checked_add(d as u64)?;
    }
    Some(value)
}

pub fn read_number(word: &[u8]) -> Option<u64>
    ensures { result ≡ number_if (is_number word.now) (decimal word.now) }
{
    if is_sized(word.len()) {
        return read_digits(word);
    }
    None
}

// The number, or the largest of the argument's type where it is larger. Three functions of a line each: a generic one would need
// a trait with the largest value of each type and a law of it, and is no plainer.
pub fn to_u32(value: u64) -> u32
    ensures { result ≡ min value (2 ^ 32 - 1) }
{
    value.min(u32::MAX as u64) as u32
}

pub fn to_u16(value: u64) -> u16
    ensures { result ≡ min value (2 ^ 16 - 1) }
{
    value.min(u16::MAX as u64) as u16
}

pub fn to_u8(value: u64) -> u8
    ensures { result ≡ min value (2 ^ 8 - 1) }
{
    value.min(u8::MAX as u64) as u8
}
