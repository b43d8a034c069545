// Makes the table of next working days of 2028 from the list of its unworked days, and prints its text: 366 lines, a number
// in each.
#![tactic(auto)]

mod text;

ghost use Rattle.std.specs.Prelude.{◌≡◌, ◌*◌, ◌≤◌, length, take};
ghost use Rattle.io.specs.Counts.{IsPrefixLen};
ghost use Rattle.calendar.specs.Rule.{year_days, table_of};
ghost use Rattle.calendar.specs.Year.{unworked2028};
ghost use Rattle.next_days.specs.Text.{most_line_bytes, program_text};

use crate::text::write_table;
use calendar::generator::{PLACES, next_days};
use calendar::year::unworked_days;
use std::io;

// More than the longest text.
const ROOM: usize = 65_536;

// The table, made by the generator, which takes this list: that is proved.
fn made() -> [u16; PLACES]
    ensures { result ≡ table_of unworked2028 }
{
    let unworked = unworked_days();
    let mut days = [0; PLACES];
    next_days(&unworked, &mut days).unwrap();
    days
}

// The text of the table stands at the start of the buffer, and is so long.
fn answer(text: &mut [u8]) -> usize
    requires { year_days * most_line_bytes ≤ length text.old }
    ensures counts { IsPrefixLen result text.new }
    ensures written { take result text.new ≡ program_text }
{
    write_table(&made(), text)
}

fn main(rt: HostRuntime) -> io::Result<()> {
    let mut text = [0; ROOM];
    let written = answer(&mut text);
    rt.write_all(&text[..written])
}
