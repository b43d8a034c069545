// What a report shows.
use crate::counters::Lot;
use crate::running::Running;
use crate::session::Close;

// The accepted lots of a direction: how many, and what they gathered.
#[derive(Clone, Copy)]
pub struct Tally {
    pub lots: usize,
    pub gathered: Running,
}

// What awaits a reply, if it is a total. Three cases and no Option of two: each has its number and its word where it is shown.
#[derive(Clone, Copy)]
pub enum Awaited {
    Neither,
    LotTotal(Lot),
    SessionTotal,
}

// What was presented less what was received, of the accepted lots.
#[derive(Clone, Copy)]
pub struct Positions {
    pub nominal: i64,
    pub commission: i64,
}

// Both directions, the close, the two signed positions, and what is awaited.
#[derive(Clone, Copy)]
pub struct Report {
    pub presented: Tally,
    pub received: Tally,
    pub close: Close,
    pub positions: Positions,
    pub awaited: Awaited,
}
