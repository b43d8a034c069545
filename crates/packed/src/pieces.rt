// A slice cut into pieces of one width, the last with what is left.
ghost use Rattle.std.specs.Prelude.{◌≡◌};
ghost use Rattle.packed.specs.Part.{part};

// The piece of width `k` that begins at `at`; past the end it is empty.
pub fn piece_at(s: &[u8], at: usize, k: usize) -> &[u8]
    ensures { result.now ≡ part at k s.now }
{
    let rest = &s[at.min(s.len())..];
    &rest[..k.min(rest.len())]
}
