// What a message does to its direction once its reply is known.
use crate::counters::Lot;
use crate::running::Running;

// The order number that a header opens, what a detail adds, the lot that a lot total ends. A presenter that awaits no reply
// has `Nothing` pending; a body that is no message does nothing. It is a case like the others and no Option around them: what a
// message of each case does is one table (`advance` of specs/Course).
#[derive(Clone, Copy)]
pub enum Effect {
    Nothing,
    Header(u16),
    Detail(Running),
    LotTotal(Lot),
    SessionTotal,
}
