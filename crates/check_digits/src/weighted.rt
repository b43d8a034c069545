// The check digit of an entity with its branch and of an account: digits times weights, modulo 11.
ghost use Rattle.std.specs.Prelude.{◌≡◌};
ghost use Rattle.check_digits.specs.Weighted.{weighted_sum, one_figure, weighted_digit};

// From the units up.
const WEIGHTS: [u64; 10] = [6, 3, 7, 9, 10, 5, 8, 4, 2, 1];

const WEIGHTED_MODULUS: u64 = 11;

// The last ten digits of a number, each times its weight, added up.
fn weighted_sum(number: u64) -> u64
    ensures { result ≡ weighted_sum number }
{
    let mut sum = 0;
    let mut rest = number;
    for weight in WEIGHTS {
        sum += rest % 10 * weight;
        rest /= 10;
    }
    sum
}

// 10 becomes 1 and 11 becomes 0.
#[tactic(auto, unfolding(crate::specs::Weighted::one_figure))]
fn one_figure(difference: u64) -> u64
    ensures { result ≡ one_figure difference }
{
    match difference {
        10 => 1,
        11 => 0,
        _ => difference,
    }
}

// The remainder of the sum, taken from 11, as one figure.
pub fn weighted_digit(number: u64) -> u64
    ensures { result ≡ weighted_digit number }
{
    one_figure(WEIGHTED_MODULUS - weighted_sum(number) % WEIGHTED_MODULUS)
}
