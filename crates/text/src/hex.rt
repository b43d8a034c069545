// Bytes as pairs of hexadecimal digits, read in either case and written in lower case.
ghost use Rattle.std.specs.Prelude.{◌≡◌, Some, None, IfSome, cond, ◌+◌, ◌*◌, ◌%◌, ◌≤◌, ◌<◌, length};
ghost use Rattle.std.proofs.lemmas.List.Edits.{sets};
ghost use Rattle.packed.specs.Every.{every};
ghost use Rattle.text.specs.Digit.{is_hexadecimal};
ghost use Rattle.text.specs.Got.{fitting, got_of};
ghost use Rattle.text.specs.Hex.{hex_text, hex_digit, hex_bytes, hex_word, is_paired};

use crate::digit::digit;
use crate::word::same;

fn is_paired(count: usize) -> bool
    ensures { result ≡ is_paired count }
{
    (0 < count) & (count % 2 == 0)
}

// Reads pairs of digits into the first bytes of a buffer, if they fit, and says how many bytes they are.
fn read_pairs(word: &[u8], bytes: &mut [u8]) -> Option<usize>
    requires { length word.now % 2 ≡ 0 }
    ensures read { got_of result bytes.new ≡ fitting (length bytes.old) (cond (every is_hexadecimal word.now) (Some (hex_bytes word.now)) None) }
    ensures bound { IfSome result (λ n. n ≤ length bytes.old) }
{
    let count = word.len() / 2;
    if bytes.len() < count {
        return None;
    }
    for i in 0..count {
        let high = digit(word[i * 2])?;
        let low = digit(word[i * 2 + 1])?;
        bytes[i] = high * 16 + low;
    }
    Some(count)
}

// A word of an even number of digits, or `-` for no bytes at all.
pub fn read_hex(word: &[u8], bytes: &mut [u8]) -> Option<usize>
    ensures read { got_of result bytes.new ≡ fitting (length bytes.old) (hex_word word.now) }
    ensures bound { IfSome result (λ n. n ≤ length bytes.old) }
{
    if same(word, b"-") {
        return Some(0);
    }
    if is_paired(word.len()) {
        return read_pairs(word, bytes);
    }
    None
}

// The digit of a half of a byte.
fn hex_digit(half: u8) -> u8
    requires { half < 16 }
    ensures { result ≡ hex_digit half }
{
    if half < 10 {
        return b'0' + half;
    }
    b'a' - 10 + half
}

// Writes bytes as pairs of digits from `at` on; every other byte keeps its value.
pub fn write_hex(d: &mut [u8], at: usize, bytes: &[u8])
    requires { at + 2 * length bytes.now ≤ length d.old }
    ensures { d.new ≡ sets d.old at (hex_text bytes.now) }
{
    for (i, b) in bytes.iter().enumerate() {
        d[at + i * 2] = hex_digit(*b / 16);
        d[at + i * 2 + 1] = hex_digit(*b % 16);
    }
}
