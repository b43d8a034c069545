// What is counted in a direction. Presenter and receiver keep the same counters.
use crate::limits::MOST_LOTS;
use crate::running::Running;

// A lot by its order number and what it gathered.
#[derive(Clone, Copy)]
pub struct Lot {
    pub number: u16,
    pub gathered: Running,
}

// The places of the lots that a receiver accepted; its counters say how many are taken. Fixed memory, no heap.
pub type Lots = [Lot; MOST_LOTS];

// The order number of the open lot, if one is open, how many lots were accepted, and what they gathered together.
#[derive(Clone, Copy)]
pub struct Counters {
    pub current: Option<u16>,
    pub lots: usize,
    pub gathered: Running,
}

// The counters of a direction, and the running totals that are lent with them.
#[derive(Clone, Copy)]
pub struct Course {
    pub counters: Counters,
    pub running: Running,
}
