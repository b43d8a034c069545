// Date and entities of a session, which never change: what a start is given, and its limits.
ghost use Rattle.std.specs.Prelude.{◌≡◌, length, ◌≤◌};
ghost use Rattle.document.specs.Limits.{most_represented};
ghost use Rattle.session.specs.Parties.{real_date, parties_good, padded, parties_of, nobody};

use document::entities::{LARGEST_ENTITY, MOST_REPRESENTED, entities_good};
use document::rules::day_and_month;

// The date is the number DDMMYY; of the represented entities the first `count` are meant (fixed memory, no heap).
#[derive(Clone, Copy)]
pub struct Parties {
    pub date: u32,
    pub own: u16,
    pub partner: u16,
    pub represented: [u16; MOST_REPRESENTED],
    pub count: usize,
}

// The largest number of six digits.
const LARGEST_DATE: u32 = 999_999;

// 29 February as DDMM, the one day that not every year has.
const LEAP_DAY: u32 = 2902;

// Whether a number is a date DDMMYY of the years 2000 to 2099, of which every fourth is a leap year.
fn real_date(date: u32) -> bool
    ensures { result ≡ real_date date }
{
    if LARGEST_DATE < date {
        return false;
    }
    // 100 is a multiple of 4, so the date has the remainder of its year.
    let day = date / 100;
    day_and_month(day as u16) & ((day != LEAP_DAY) | (date % 4 == 0))
}

// Whether a start may be made of these, which stay apart here and in `parties_of`: they are the parameters of `Session::start`.
pub fn parties_good(date: u32, own: u16, partner: u16, represented: &[u16]) -> bool
    ensures { result ≡ parties_good date own partner represented.now }
{
    real_date(date)
        & entities_good(own, represented)
        & (partner <= LARGEST_ENTITY)
        & (own != partner)
}

// The represented entities in their eight places, the rest of them 0.
fn padded(represented: &[u16]) -> [u16; MOST_REPRESENTED]
    requires { length represented.now ≤ most_represented }
    ensures { result ≡ padded represented.now }
{
    let mut places = [0; MOST_REPRESENTED];
    places[..represented.len()].copy_from_slice(represented);
    places
}

// The parties of a start.
pub fn parties_of(date: u32, own: u16, partner: u16, represented: &[u16]) -> Parties
    requires { length represented.now ≤ most_represented }
    ensures { result ≡ parties_of date own partner represented.now }
{
    Parties {
        date,
        own,
        partner,
        represented: padded(represented),
        count: represented.len(),
    }
}

// Parties of no session: no start accepts them, and yet every number is in range.
pub fn nobody() -> Parties
    ensures { result ≡ nobody }
{
    Parties {
        date: 0,
        own: 0,
        partner: 0,
        represented: [0; MOST_REPRESENTED],
        count: 0,
    }
}
