// The commission that a rule gives: kept, or worked out by a row of the tariff and held within its bounds.
ghost use Rattle.std.specs.Prelude.{◌≡◌, ◌≤◌, IfSome};
ghost use Rattle.tariff.specs.Tariff.{largest_rate};
ghost use Rattle.tariff.specs.Commission.{by_row, due};
ghost use Rattle.tariff.specs.Inner.Bounds.{nominal_bound, rate_of};

use crate::rounding::rounded;
use crate::row::Row;
use crate::search::Rule;

// Raised to the least, or cut to the greatest.
#[tactic(auto, unfolding(crate::specs::Commission::by_row))]
fn by_row(row: Row, nominal: u64) -> u64
    requires rate_le_largest_rate { row.rate ≤ largest_rate }
    requires nominal_le_nominal_bound { nominal ≤ nominal_bound }
    ensures { result ≡ by_row row nominal }
{
    rounded(nominal * u64::from(row.rate))
        .max(u64::from(row.least))
        .min(u64::from(row.greatest))
}

// The commission that a rule gives, 0 where there is none.
#[tactic(auto, unfolding(crate::specs::Commission::due))]
pub fn due(rule: Option<Rule>, nominal: u64, typed: u64) -> u64
    requires rule_bound { IfSome rule (λ known. rate_of known ≤ largest_rate) }
    requires nominal_le_nominal_bound { nominal ≤ nominal_bound }
    ensures { result ≡ due rule nominal typed }
{
    match rule {
        Some(Rule::Typed) => typed,
        Some(Rule::ByRow(row)) => by_row(row, nominal),
        None => 0,
    }
}
