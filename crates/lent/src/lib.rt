// The calls that change running totals, in the form in which 01 describes them: the running totals of a direction are lent
// and changed in place. Receiving and the reply call are thin functions over the calls by value, and add an accepted detail
// to what they are lent: `leaving` has the one step by which they change it, and `example` a caller.
#![tactic(auto)]

pub mod example;
mod leaving;
pub mod receive;
pub mod reply;
