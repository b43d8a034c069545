// The calls of neither direction, the clock call and the report, and what the calls of both have in common (01, 'Course of
// a direction'): the refusals by the clock, the sequence of messages, the counters that move. What a call means stands in
// the specs/ of `session`.
#![tactic(auto)]

pub mod answer;
pub mod called;
pub mod clock;
pub mod course;
pub mod details;
pub mod report;
pub mod sequence;
pub mod time;
