// The commission of presented documents by their tariff key, worked out before they are sent: a tariff, what its keys say,
// the commission of one document, and those of a tray. No session asks a tariff. What the words mean stands in specs/.
#![tactic(auto)]

pub mod commission;
mod due;
pub mod filled;
mod filling;
mod good;
mod judging;
mod rounding;
mod row;
mod search;
pub mod tray;

// Where a presented document has its tariff key, counted from 0, and how wide it is.
pub const TARIFF_KEY: usize = 41;

pub const TARIFF_KEY_BYTES: usize = 2;
