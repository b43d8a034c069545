// The paper's numbers: the codes that travel in replies and the refusals of a call (01, 'Given because of the input' and
// 'Given because of the state'), which is its answer where it is not done. When each is given is decided by the crates above;
// here stand the numbers and the chain of codes, in specs/Chain.antt the way in which the paper puts them in order, in
// specs/Field.antt how a table of fields is written, and what every body begins with.
#![tactic(auto)]

pub mod answer;
pub mod body;
pub mod chain;
pub mod code;
pub mod refusal;
