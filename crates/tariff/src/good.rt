// A tariff that is good, and what its keys say.
ghost use Rattle.std.specs.Prelude.{◌≡◌, true, false, ◌&&◌, ◌≤◌, map, MatchOption, IfSome};
ghost use Rattle.packed.specs.Every.{every, none_twice};
ghost use Rattle.tariff.specs.Tariff.{largest_rate, row_in, rows_of, row_good, keys_of, good_tariff};
ghost use Rattle.tariff.specs.Commission.{rule_of};
ghost use Rattle.tariff.specs.Inner.Bounds.{rate_of};

use crate::row::{ROW_NUMBERS, Row};
use crate::search::{Rule, search};

const MOST_KEYS: usize = 20;

// A good tariff, by its rows.
#[derive(Clone, Copy)]
pub struct Tariff<'a> {
    pub rows: &'a [[u32; ROW_NUMBERS]],
    ghost rows_good: { every row_good (map row_in rows.now) ≡ true },
}

// Whether no key is there twice, and each row is good; each key is looked for in the rows behind its own.
fn rows_good(rows: &[[u32; ROW_NUMBERS]]) -> bool
    ensures { result ≡ (none_twice (keys_of (map row_in rows.now)) && every row_good (map row_in rows.now)) }
{
    for (place, numbers) in rows.iter().enumerate() {
        let row = Row::from(*numbers);
        if !row.is_good() || search(&rows[place + 1..], row.key).is_some() {
            return false;
        }
    }
    true
}

// The tariff of some numbers, none where they earn 42. No row is read where one is cut or there are too many.
pub fn read_tariff<'a>(numbers: &'a [u32]) -> Option<Tariff<'a>>
    ensures { MatchOption result
        (good_tariff numbers.now ≡ false)
        (λ tariff. (good_tariff numbers.now ≡ true) × (map row_in tariff.rows.now ≡ rows_of numbers.now)) }
{
    let (rows, cut) = numbers.as_chunks::<ROW_NUMBERS>();
    if cut.is_empty() && rows.len() <= MOST_KEYS && rows_good(rows) {
        Some(Tariff { rows })
    } else {
        None
    }
}

impl Tariff<'_> {
    // What a key says, if it is known; 0 is never looked for.
    pub fn rule_of(&self, key: u32) -> Option<Rule>
        ensures rule { result ≡ rule_of (map row_in self.now.rows.now) key }
        ensures rate { IfSome result (λ rule. rate_of rule ≤ largest_rate) }
    {
        if key == 0 {
            return Some(Rule::Typed);
        }
        search(self.rows, key).map(Rule::ByRow)
    }
}
