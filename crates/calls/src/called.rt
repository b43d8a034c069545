// What a call gives that writes nothing: its answer, and the session that it leaves, also where it is refused, since `outcome`
// and `premise` of a call speak of it there too.
use codes::answer::Answer;
use session::session::Session;

#[derive(Clone, Copy)]
pub struct Called {
    pub answer: Answer,
    pub session: Session,
}
