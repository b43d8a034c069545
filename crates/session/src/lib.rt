// The state of a session, its hours and limits, and the start (01, 'Centres and directions' and 'Course of a direction';
// 02, card 2, for one of the hours).
// What every call means stands in specs/, with the claim about both ends of a line; proofs/ holds its proof. The calls
// themselves are functions of the crates above.
#![tactic(auto)]

pub mod counters;
pub mod effect;
pub mod hours;
pub mod limits;
pub mod parties;
pub mod report;
pub mod running;
pub mod session;
