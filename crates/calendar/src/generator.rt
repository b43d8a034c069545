// The table of next working days, made from a list of unworked days.
ghost use Rattle.std.specs.Prelude.{◌≡◌, true, ◌++◌, ◌≤◌, length, drop};
ghost use Rattle.calendar.specs.Rule.{year_days, table_of};
ghost use Rattle.calendar.specs.Generator.{good_list, table_number, table_refusal, places_after};

// The days of a leap year, the longest.
pub const YEAR_DAYS: u16 = 366;

// The places of its table.
pub const PLACES: usize = YEAR_DAYS as usize;

// Why no table is made, with the paper's numbers.
#[derive(Clone, Copy, PartialEq, Eq, Debug)]
pub enum TableRefusal {
    ShortBuffer = 23,
    WrongList = 40,
}

// The number of an answer. A function and no `From`, which can't be written for the library's Result.
pub fn table_number(answer: Result<(), TableRefusal>) -> u8
    ensures { result ≡ table_number answer }
{
    match answer {
        Ok(()) => 0,
        Err(refusal) => refusal as u8,
    }
}

// Whether the days ascend, each one of the year.
fn good_list(unworked: &[u16]) -> bool
    ensures { result ≡ good_list unworked.now }
{
    let mut last = 0;
    for day in unworked {
        if *day <= last || YEAR_DAYS < *day {
            return false;
        }
        last = *day;
    }
    true
}

// Fills the table from the last day of the year to the first, and goes through the list from its end at the same time.
fn fill(unworked: &[u16], days: &mut [u16])
    requires good { good_list unworked.now ≡ true }
    requires room { year_days ≤ length days.old }
    ensures { days.new ≡ table_of unworked.now ++ drop year_days days.old }
{
    let mut left = unworked;
    let mut next = 0;
    for place in (0..PLACES).rev() {
        days[place] = next;
        let day = place as u16 + 1;
        match left {
            [before @ .., last] if *last == day => left = before,
            _ => next = day,
        }
    }
}

// Writes the table into the first places, for each day the first later working day or 0.
pub fn next_days(unworked: &[u16], days: &mut [u16]) -> Result<(), TableRefusal>
    ensures answer { table_number result ≡ table_refusal unworked.now (length days.old) }
    ensures after { days.new ≡ places_after unworked.now days.old }
{
    if !good_list(unworked) {
        return Err(TableRefusal::WrongList);
    }
    if days.len() < PLACES {
        return Err(TableRefusal::ShortBuffer);
    }
    fill(unworked, days);
    Ok(())
}
