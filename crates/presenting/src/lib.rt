// The calls of the direction in which a centre presents (01, 'Course of a direction'): the four that send a message, and
// the one that takes its reply. What they mean stands in the specs/ of `session`.
#![tactic(auto)]

pub mod answer;
mod pending;
mod post;
pub mod reply;
pub mod sending;
mod stops;
