// A detail written from documents.
ghost use Rattle.std.specs.Prelude.{◌≡◌, ℕ, ◌+◌, ◌*◌, ◌≤◌, length};
ghost use Rattle.std.proofs.lemmas.List.Edits.{sets};
ghost use Rattle.codes.specs.Body.{longest_body};
ghost use Rattle.detail.specs.Limits.{head_bytes, fill_bytes};
ghost use Rattle.detail.specs.Inner.Part.{longest_part};
ghost use Rattle.detail.specs.Writing.{written_group, written_detail};

use crate::groups::{FULL_COUNT, HEAD_BYTES};
use codes::body::MARK;
use document::{DOCUMENT_BYTES, MOST_DETAIL_DOCUMENTS};
use packed::writing::copy;

// The bytes of a full group's documents.
const FILL_BYTES: usize = FULL_COUNT * DOCUMENT_BYTES;

// The bytes of the most documents of a detail.
pub const LONGEST_PART: usize = MOST_DETAIL_DOCUMENTS * DOCUMENT_BYTES;

// How long a body written from a part is: the part, and a head for each group that it begins. A part that is too long for
// any detail is never written, and 0 stands for its length: no Option, since `bound` is promised of every part.
pub fn written_bytes(part: &[u8]) -> usize
    ensures length { length part.now ≤ longest_part → (operation : ℕ) → result ≡ length (written_detail operation part.now) }
    ensures bound { result ≤ longest_body }
{
    if LONGEST_PART < part.len() {
        return 0;
    }
    part.len() + part.len().div_ceil(FILL_BYTES) * HEAD_BYTES
}

// Writes one group of at most four documents at `to`; every other byte keeps its value.
fn write_group(out: &mut [u8], to: usize, operation_byte: u8, documents: &[u8])
    requires documents_in_bounds { to + head_bytes + length documents.now ≤ length out.old }
    requires documents_len_bound { length documents.now ≤ fill_bytes }
    ensures { out.new ≡ sets out.old to (written_group operation_byte documents.now) }
{
    let count = (documents.len() / DOCUMENT_BYTES) as u8;
    copy(out, to, &[0, MARK, operation_byte, count]);
    copy(out, to + HEAD_BYTES, documents);
}

// Writes a body from the operation byte and the part at the start of `out`, and answers its length; every other byte keeps
// its value.
pub fn write_detail(out: &mut [u8], operation_byte: u8, part: &[u8]) -> usize
    requires { length (written_detail operation_byte part.now) ≤ length out.old }
    ensures length { result ≡ length (written_detail operation_byte part.now) }
    ensures bytes { out.new ≡ sets out.old 0 (written_detail operation_byte part.now) }
{
    let mut to = 0;
    for documents in part.chunks(FILL_BYTES) {
        write_group(out, to, operation_byte, documents);
        to += HEAD_BYTES + documents.len();
    }
    to
}
