// The signed difference of two amounts of one kind, as a report's positions have it.
ghost use Rattle.std.specs.Prelude.{◌≡◌, nat_abs};
ghost use Rattle.amounts.specs.Difference.{difference};
ghost use Rattle.amounts.specs.Inner.Fits.{DifferenceFits};

use crate::{Commission, Nominal};

// The first less the second, whatever the two count.
fn difference(a: u64, b: u64) -> i64
    requires { DifferenceFits a b }
    ensures { result ≡ difference a b }
{
    (a as i64) - (b as i64)
}

// The two that follow differ in the type that they take. One function for both would need a trait and two impls of it, which is
// more than it would save.

// The nominal position where `a` is presented and `b` received.
pub fn nominal_difference(a: Nominal, b: Nominal) -> i64
    requires { DifferenceFits a.0 b.0 }
    ensures { result ≡ difference a.0 b.0 }
{
    difference(a.0, b.0)
}

// The commission position where `a` is presented and `b` received.
pub fn commission_difference(a: Commission, b: Commission) -> i64
    requires { DifferenceFits a.0 b.0 }
    ensures { result ≡ difference a.0 b.0 }
{
    difference(a.0, b.0)
}

// A number without its sign, the lowest as well.
pub fn magnitude(n: i64) -> u64
    ensures { result ≡ nat_abs n }
{
    n.unsigned_abs()
}
