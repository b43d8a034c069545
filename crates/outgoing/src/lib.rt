// Ready documents that wait to be sent, 01's trays: presentations and returns, each a run of whole documents with a cursor
// that counts how many of them are sent; moving it is the caller's part. What the words mean stands in specs/.
#![tactic(auto)]

ghost use Rattle.std.specs.Prelude.{◌≡◌, true};
ghost use Rattle.codes.specs.Answer.{answer_number};
ghost use Rattle.outgoing.specs.Outgoing.{ready_good, both_good, next_of, next, check_code};

use codes::answer::Answer;
use codes::refusal::Refusal;
use document::{DOCUMENT_BYTES, MOST_DETAIL_DOCUMENTS};
use packed::pieces::piece_at;

// The two trays of an end.
#[derive(Clone, Copy)]
pub struct Trays<'a> {
    pub presentations: &'a [u8],
    pub returns: &'a [u8],
}

// Their cursors.
#[derive(Clone, Copy, PartialEq, Eq, Default)]
pub struct Cursors {
    pub presentations: usize,
    pub returns: usize,
}

// Whether a tray has whole documents and its cursor is not past them. The cursor is compared in documents: in bytes it
// might not fit a number.
fn ready_good(ready: &[u8], cursor: usize) -> bool
    ensures { result ≡ ready_good ready.now cursor }
{
    ready.len() % DOCUMENT_BYTES == 0 && cursor <= ready.len() / DOCUMENT_BYTES
}

// At most 200 documents from the cursor on.
fn next_of<'a>(ready: &'a [u8], cursor: usize) -> &'a [u8]
    requires { ready_good ready.now cursor ≡ true }
    ensures { result.now ≡ next_of ready.now cursor }
{
    piece_at(
        ready,
        cursor * DOCUMENT_BYTES,
        MOST_DETAIL_DOCUMENTS * DOCUMENT_BYTES,
    )
}

impl<'a> Trays<'a> {
    // Whether both are good.
    fn good(self, sent: Cursors) -> bool
        ensures { result ≡ both_good self.entry.presentations.now self.entry.returns.now sent.presentations sent.returns }
    {
        ready_good(self.presentations, sent.presentations) && ready_good(self.returns, sent.returns)
    }

    // The documents of the next detail: presentations while any remain, then returns, never both; nothing when all are
    // sent, and nothing where a tray is refused.
    pub fn next(self, sent: Cursors) -> &'a [u8]
        ensures { result.now ≡ next self.entry.presentations.now self.entry.returns.now sent.presentations sent.returns }
    {
        if !self.good(sent) {
            return &[];
        }
        if sent.presentations < self.presentations.len() / DOCUMENT_BYTES {
            return next_of(self.presentations, sent.presentations);
        }
        next_of(self.returns, sent.returns)
    }

    // The answer beside it: that both are in order, also when all is sent, or why nothing is handed out.
    pub fn check(self, sent: Cursors) -> Answer
        ensures { answer_number result ≡ check_code self.entry.presentations.now self.entry.returns.now sent.presentations sent.returns }
    {
        if !self.good(sent) {
            return Err(Refusal::WrongOutgoing);
        }
        Ok(())
    }
}
