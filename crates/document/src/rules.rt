// The rules on the values of fields, one function for each rule of the table.
ghost use Rattle.std.specs.Prelude.{◌≡◌};
ghost use Rattle.document.specs.Inner.Values.{values_good};
ghost use Rattle.document.specs.Rules.{identification, day_and_month, province, truncation, key_or_reason};

use crate::{DOCUMENT_BYTES, RETURNED};
use packed::number::{number, number2};

// Where the fields stand that have a rule and no other test.
const IDENTIFICATION: usize = 5;

const DAY_AND_MONTH: usize = 11;

const TAKER_PROVINCE: usize = 17;

const RECEIVING: usize = 18;

const CLAIMS_PROVINCE: usize = 20;

const TRUNCATION: usize = 40;

const KEY_OR_REASON: usize = 41;

fn identification(v: u16) -> bool
    ensures { result ≡ identification v }
{
    (v == 0) | (v / 100 == 80)
}

// The days of each month from 00, which has none, to 12.
pub const MONTH_DAYS: [u16; 13] = [0, 31, 29, 31, 30, 31, 30, 31, 31, 30, 31, 30, 31];

pub fn day_and_month(v: u16) -> bool
    ensures { result ≡ day_and_month v }
{
    let days = MONTH_DAYS.get((v % 100) as usize).copied().unwrap_or(0);
    (1..=days).contains(&(v / 100))
}

fn province(v: u64) -> bool
    ensures { result ≡ province v }
{
    (1..=52).contains(&v)
}

fn truncation(v: u64) -> bool
    ensures { result ≡ truncation v }
{
    (1..=2).contains(&v)
}

fn key_or_reason(operation: u8, v: u16) -> bool
    ensures { result ≡ key_or_reason operation v }
{
    (operation != RETURNED) | (1..=49).contains(&v) | (51..=99).contains(&v)
}

// Whether every field has a value that it takes, whatever its digits.
pub fn values_good(d: &[u8; DOCUMENT_BYTES], operation: u8, receiving: u16) -> bool
    ensures { result ≡ values_good operation receiving d.now }
{
    identification(number2(d, IDENTIFICATION))
        & day_and_month(number2(d, DAY_AND_MONTH))
        & province(number(d, TAKER_PROVINCE, 1))
        & (number2(d, RECEIVING) == receiving)
        & province(number(d, CLAIMS_PROVINCE, 1))
        & truncation(number(d, TRUNCATION, 1))
        & key_or_reason(operation, number2(d, KEY_OR_REASON))
}
