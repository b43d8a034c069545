// The check program (01, 'The check program'): takes the bytes of a detail's body from standard input, and prints the code
// in two digits and the three totals. Where the input cannot be read to its end, there is no body to judge: it says so on
// standard error, and prints nothing.
#![tactic(auto)]

mod input;
mod line;

ghost use Rattle.std.specs.Prelude.{◌≡◌, ◌≤◌, length, take};
ghost use Rattle.io.specs.Counts.{IsPrefixLen};
ghost use Rattle.detail.specs.Checked.{program_checked};
ghost use Rattle.check_detail.specs.Line.{program_line, most_line_bytes};

use crate::input::read_input;
use crate::line::{LINE_BYTES, write_line};
use detail::checked::{Checked, line_check_detail};
use std::io;

// Far more than the longest body, so that a body too long is seen to be so.
const ROOM: usize = 65_536;

// The check of a body, for entity 0072 with nobody represented.
fn checked(body: &[u8]) -> Checked
    ensures { result ≡ program_checked body.now }
{
    line_check_detail(body, 72, &[])
}

// The line for a body stands at the start of the buffer, and is so long.
fn answer(body: &[u8], line: &mut [u8]) -> usize
    requires { most_line_bytes ≤ length line.old }
    ensures counts { IsPrefixLen result line.new }
    ensures written { take result line.new ≡ program_line body.now }
{
    write_line(checked(body), line)
}

fn main(rt: HostRuntime) -> io::Result<()> {
    let mut input = [0; ROOM];
    let Ok(count) = read_input(&mut rt.stdin(), &mut input) else {
        return eprintln!(rt; "check_detail: standard input cannot be read");
    };
    let mut line = [0; LINE_BYTES];
    let written = answer(&input[..count], &mut line);
    rt.write_all(&line[..written])
}
