// What C is shown of a compensation date; C has no Result, so a number stands beside the date.
ghost use Rattle.std.specs.Prelude.{◌≡◌};
ghost use Rattle.calendar.specs.Shown.{shown};

use crate::compensation::NoDate;

// 0 where the date was found, 1 where none is left in the year, 2 where there is no such day; the date is 0 unless found.
#[repr(C)]
#[derive(Clone, Copy)]
pub struct CompensationShown {
    pub found: u8,
    pub date: u32,
}

pub fn shown(compensation: Result<u32, NoDate>) -> CompensationShown
    ensures { result ≡ shown compensation }
{
    match compensation {
        Ok(date) => CompensationShown { found: 0, date },
        Err(none) => CompensationShown {
            found: none as u8,
            date: 0,
        },
    }
}
