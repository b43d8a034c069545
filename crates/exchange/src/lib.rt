// A small driver of a line: two centres and the trays of each. One round is a message, its way to the other end, and the
// reply on its way back; an evening is made of rounds alone, with the clock calls and the reports at its end. What the
// words mean stands in specs/.
#![tactic(auto)]

mod cursors;
mod direction;
pub mod evening;
mod fixed;
mod lot;
mod progress;
pub mod round;
pub mod rounds;
pub mod shown;
