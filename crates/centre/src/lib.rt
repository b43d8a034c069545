// One end of a line: a session with the running totals of both its directions, and every call on it in one form. What a
// call does to an end is `turned` of specs/, made of the definitions that the calls' own contracts cite.
#![tactic(auto)]

pub mod call;
pub mod end;
mod turn;
