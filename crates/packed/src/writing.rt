// A value written as packed bytes, and bytes copied as they are.
ghost use Rattle.std.specs.Prelude.{◌≡◌, ◌+◌, ◌≤◌, length};
ghost use Rattle.std.proofs.lemmas.List.Edits.{sets};
ghost use Rattle.packed.specs.Writing.{packed_byte, packed_bytes};

// The last two digits of a value as a byte.
#[tactic(auto, unfolding(crate::specs::Writing::packed_byte))]
pub fn packed_byte(value: u64) -> u8
    ensures { result ≡ packed_byte value }
{
    let pair = value % 100;
    (pair + pair / 10 * 6) as u8
}

// Writes the last `n` pairs of digits of a value from `at` on, the highest pair at `at`; every other byte keeps its value.
pub fn put(d: &mut [u8], at: usize, n: usize, value: u64)
    requires { at + n ≤ length d.old }
    ensures { d.new ≡ sets d.old at (packed_bytes n value) }
{
    let mut rest = value;
    for i in (at..at + n).rev() {
        d[i] = packed_byte(rest);
        rest /= 100;
    }
}

// Copies all of `s` to `at` on; every other byte keeps its value. The library's `copy_from_slice` would have an archive ask for
// `memmove`, and include/line.h tells of two other names alone.
pub fn copy(d: &mut [u8], at: usize, s: &[u8])
    requires { at + length s.now ≤ length d.old }
    ensures { d.new ≡ sets d.old at s.now }
{
    for (i, b) in s.iter().enumerate() {
        d[at + i] = *b;
    }
}
