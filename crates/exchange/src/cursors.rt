// How the driver moves the cursors of an end's two trays.
ghost use Rattle.std.specs.Prelude.{◌≡◌, true};
ghost use Rattle.exchange.specs.Cursors.{presenting, next_operation, moved, within};

use document::{DOCUMENT_BYTES, PRESENTED_NUMBER, RETURNED_NUMBER};
use outgoing::{Cursors, Trays};

// Whether the next part is one of the presentations.
fn presenting(presentations: &[u8], cursors: Cursors) -> bool
    ensures { result ≡ presenting presentations.now cursors }
{
    cursors.presentations < presentations.len() / DOCUMENT_BYTES
}

// The operation of the next part: 30, or 40 once the presentations are used up.
pub fn operation(presentations: &[u8], cursors: Cursors) -> u8
    ensures { result ≡ next_operation presentations.now cursors }
{
    if presenting(presentations, cursors) {
        return PRESENTED_NUMBER;
    }
    RETURNED_NUMBER
}

// Past so many documents more, of the tray that the next part is of.
pub fn moved(trays: Trays, cursors: Cursors, documents: usize) -> Cursors
    requires { within trays.presentations.now trays.returns.now (moved trays.presentations.now documents cursors) ≡ true }
    ensures { result ≡ moved trays.entry.presentations.now documents cursors }
{
    if presenting(trays.presentations, cursors) {
        return Cursors {
            presentations: cursors.presentations + documents,
            ..cursors
        };
    }
    Cursors {
        returns: cursors.returns + documents,
        ..cursors
    }
}
