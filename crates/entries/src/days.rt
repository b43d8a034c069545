// The calendar for C: a table of next working days is made, and a compensation date is given.
ghost use Rattle.std.specs.Prelude.{◌≡◌, length};
ghost use Rattle.calendar.specs.Generator.{table_refusal, places_after};
ghost use Rattle.calendar.specs.Compensation.{compensation};
ghost use Rattle.calendar.specs.Shown.{shown};

use calendar::compensation::compensation_date;
use calendar::generator::{next_days, table_number};
use calendar::shown::{CompensationShown, shown};

// Makes the table of next working days from a list of unworked days, in the first of the lent places.
#[unsafe(no_mangle)]
pub extern "C" fn line_next_days(unworked: &[u16], days: &mut [u16]) -> u8
    ensures answer { result ≡ table_refusal unworked.now (length days.old) }
    ensures after { days.new ≡ places_after unworked.now days.old }
{
    table_number(next_days(unworked, days))
}

// The compensation date of a date of 2028.
#[unsafe(no_mangle)]
pub extern "C" fn line_compensation_date(date: u32) -> CompensationShown
    ensures { result ≡ shown (compensation date) }
{
    shown(compensation_date(date))
}
