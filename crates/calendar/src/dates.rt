// Days of 2028 as dates and as numbers, over the table of the lengths of the months.
ghost use Rattle.std.specs.Prelude.{◌≡◌, true, ◌<◌};
ghost use Rattle.calendar.specs.Dates.{is_day2028, day_number, date_of};

use document::rules::{MONTH_DAYS, day_and_month};

// The last two digits of every date here.
const YEAR: u32 = 28;

// Whether a number is a date DDMM28.
pub fn is_day(date: u32) -> bool
    ensures { result ≡ is_day2028 date }
{
    match u16::try_from(date / 100) {
        Ok(day) => date % 100 == YEAR && day_and_month(day),
        Err(_) => false,
    }
}

// The number of a date in the year: the days of the months before, and the day.
pub fn day_number(date: u32) -> u16
    requires { is_day2028 date ≡ true }
    ensures { result ≡ day_number date }
{
    let day = (date / 100 / 100) as u16;
    let month = (date / 100 % 100) as usize;
    MONTH_DAYS[..month].iter().sum::<u16>() + day
}

// The date of a number; 0 where the year has no such day, as the definition `date_of` has it.
pub fn date_of(number: u16) -> u32
    requires { 0 < number }
    ensures { result ≡ date_of number }
{
    let mut day = number;
    for (month, days) in MONTH_DAYS.iter().enumerate() {
        if day <= *days {
            return (u32::from(day) * 100 + month as u32) * 100 + YEAR;
        }
        day -= *days;
    }
    0
}
