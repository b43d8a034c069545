// The division of a nominal times a rate by ten thousand. Nothing else knows how it is rounded.
ghost use Rattle.std.specs.Prelude.{◌≡◌, ◌≤◌};
ghost use Rattle.tariff.specs.Rounding.{rounded};
ghost use Rattle.tariff.specs.Inner.Bounds.{product_bound};

const WHOLE: u64 = 10_000;

const HALF: u64 = 5_000;

// An exact half goes up.
pub fn rounded(product: u64) -> u64
    requires { product ≤ product_bound }
    ensures { result ≡ rounded product }
{
    (product + HALF) / WHOLE
}
