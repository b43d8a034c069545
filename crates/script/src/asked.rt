// What is asked of an end.
ghost use Rattle.std.specs.Prelude.{◌≤◌, length};

use centre::call::Order;
use text::kind::Kind;

// The most represented entities of a line; a start refuses more than eight.
pub const MOST_ENTITIES: usize = 16;

// What a line asks of its end: a start, whose represented entities stand beside it; or a call, whose bytes do.
#[derive(Clone, Copy)]
pub enum Asked {
    Start(u32, u16, u16),
    Call(Order),
}

// A line that asks something of the near end, A, or of the far one, B; or nothing, as a report and a line that is no call do. Of
// the entities the first `more` are meant, and of the buffer beside it the first `bytes`; `room` is the length of the line
// buffer. An array with a count, since there is no heap: memory is fixed.
#[derive(Clone, Copy)]
pub struct Reading {
    pub kind: Kind,
    pub near: bool,
    pub asked: Option<Asked>,
    pub entities: [u16; MOST_ENTITIES],
    pub more: usize,
    pub bytes: usize,
    pub room: usize,
    ghost more_in_bounds: { more ≤ length entities },
}
