// The call of the direction in which a centre receives (01, 'Course of a direction'): a message of any bytes, its code, what
// it does, and the reply. What it means stands in the specs/ of `session`.
#![tactic(auto)]

mod accepted;
mod arrival;
mod earned;
mod handling;
mod hearer;
pub mod receive;
