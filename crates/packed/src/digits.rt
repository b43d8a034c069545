// Whether bytes are packed digits.
ghost use Rattle.std.specs.Prelude.{◌≡◌, ◌+◌, ◌≤◌, length};
ghost use Rattle.packed.specs.Part.{part};
ghost use Rattle.packed.specs.Digits.{is_digits, are_digits};

// Whether both halves of a byte are decimal digits.
#[tactic(auto, unfolding(crate::specs::Digits::is_digits))]
pub fn is_digits(b: u8) -> bool
    ensures { result ≡ is_digits b }
{
    (b / 16 < 10) & (b % 16 < 10)
}

// Whether the `n` bytes from `at` on are all digits. It never stops early: a loop without a branch is the faster one on
// good input.
pub fn are_digits(s: &[u8], at: usize, n: usize) -> bool
    requires { at + n ≤ length s.now }
    ensures { result ≡ are_digits (part at n s.now) }
{
    let mut ok = true;
    for b in &s[at..at + n] {
        ok &= is_digits(*b);
    }
    ok
}
