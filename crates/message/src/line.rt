// Whole replies in the lent line buffer: an envelope, and a body from byte 13 on.
ghost use Rattle.std.specs.Prelude.{◌≡◌, ◌≤◌, length};
ghost use Rattle.std.proofs.lemmas.List.Edits.{sets};
ghost use Rattle.message.specs.Limits.{reply_room};
ghost use Rattle.message.specs.Line.{whole_reply};

use crate::envelope::{ENVELOPE_BYTES, Envelope, Kind, write_envelope};
use crate::reply::{Reply, write_reply_body};

// Writes a reply at the start of the line buffer; every other byte keeps its value. The envelope is that of the message.
// The tail of the buffer is lent to the writer of the body, which knows nothing of envelopes.
pub fn write_reply(line: &mut [u8], e: Envelope, r: Reply)
    requires { reply_room ≤ length line.old }
    ensures { line.new ≡ sets line.old 0 (whole_reply e r) }
{
    write_envelope(line, Kind::Reply, e);
    write_reply_body(&mut line[ENVELOPE_BYTES..], r);
}
