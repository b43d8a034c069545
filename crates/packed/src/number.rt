// The value of a run of packed bytes, total on any bytes: a half that is no digit counts as the number it is.
ghost use Rattle.std.specs.Prelude.{◌≡◌, ◌+◌, ◌*◌, ◌^◌, ◌≤◌, ◌<◌, length};
ghost use Rattle.packed.specs.Part.{part};
ghost use Rattle.packed.specs.Number.{byte_value, number};

// The value of one byte.
#[tactic(auto, unfolding(crate::specs::Number::byte_value))]
pub fn byte_value(b: u8) -> u32
    ensures value { result ≡ byte_value b }
    ensures bound { result ≤ 165 }
{
    let wide = b as u32;
    wide - wide / 16 * 6
}

// The value of the `n` bytes from `at` on, `n` at most 9. Whatever the bytes, it stays below twice what digits could
// reach, so that sums of many need no test of the digits first.
pub fn number(s: &[u8], at: usize, n: usize) -> u64
    requires n_in_bounds { at + n ≤ length s.now }
    requires n_bound { n ≤ 9 }
    ensures value { result ≡ number (part at n s.now) }
    ensures bound { result < 2 * 100 ^ n }
{
    let mut value: u64 = 0;
    for b in &s[at..at + n] {
        value = value * 100 + byte_value(*b) as u64;
    }
    value
}

// The value of two bytes, as an entity or an order number: 16,665 at most, and nothing on the way needs more than 16 bits.
// Both bytes are taken as one number, in which the digits weigh 4,096, 256, 16 and 1; less 6 for each 16, 60 for each 256
// and 600 for each 4,096 they weigh 1,000, 100, 10 and 1. No generic function reads two, four and more bytes in one way: tried
// in three ways, and slower by a hundredth to a third.
pub fn number2(s: &[u8], at: usize) -> u16
    requires { at + 2 ≤ length s.now }
    ensures { result ≡ number (part at 2 s.now) }
{
    let both = u16::from_be_bytes([s[at], s[at + 1]]);
    both - both / 16 * 6 - both / 256 * 60 - both / 4096 * 600
}

// The value of four bytes, as a serial or a commission: 166,666,665 at most, and nothing on the way needs more than 32 bits.
pub fn number4(s: &[u8], at: usize) -> u32
    requires { at + 4 ≤ length s.now }
    ensures { result ≡ number (part at 4 s.now) }
{
    let two = byte_value(s[at]) * 100 + byte_value(s[at + 1]);
    let three = two * 100 + byte_value(s[at + 2]);
    three * 100 + byte_value(s[at + 3])
}
