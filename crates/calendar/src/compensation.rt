// The compensation date of a day: the first working day after it.
ghost use Rattle.std.specs.Prelude.{◌≡◌};
ghost use Rattle.calendar.specs.Compensation.{compensation};

use crate::dates::{date_of, day_number, is_day};
use crate::year::next_day;

// Why a date has no compensation date: the year has no later working day, or no such day. The numbers are those that C is shown.
#[derive(Clone, Copy, PartialEq, Eq, Debug)]
pub enum NoDate {
    NoneLeft = 1,
    NoDay = 2,
}

// The compensation date of a date, both as the number DDMM28.
pub fn compensation_date(date: u32) -> Result<u32, NoDate>
    ensures { result ≡ compensation date }
{
    if !is_day(date) {
        return Err(NoDate::NoDay);
    }
    match next_day(day_number(date)) {
        0 => Err(NoDate::NoneLeft),
        next => Ok(date_of(next)),
    }
}
