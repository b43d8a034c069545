// What is found in many documents: those of a part, and those of a body, group by group.
ghost use Rattle.std.specs.Prelude.{◌≡◌, true, ◌%◌, ◌≤◌, length};
ghost use Rattle.packed.specs.Every.{every};
ghost use Rattle.packed.specs.Pieces.{pieces};
ghost use Rattle.document.specs.Limits.{document_bytes};
ghost use Rattle.document.specs.Inner.Bounds.{Within};
ghost use Rattle.document.specs.Inner.Found.{found_in};
ghost use Rattle.codes.specs.Body.{longest_body};
ghost use Rattle.detail.specs.Groups.{group_good, groups, documents};

use crate::groups::{GROUP_BYTES, HEAD_BYTES};
use document::DOCUMENT_BYTES;
use document::found::{Found, read_document};

// What is found in the documents of a part. They are fewer than its bytes, and that bound is enough for the sums.
pub fn read_documents(part: &[u8], operation: u8, receiving: u16, represented: &[u16]) -> Found
    requires document_bytes_len { length part.now % document_bytes ≡ 0 }
    requires part_len_bound { length part.now ≤ longest_body }
    ensures found { result ≡ found_in operation receiving represented.now (pieces document_bytes part.now) }
    ensures bound { Within (length part.now) result.totals }
{
    let (documents, _) = part.as_chunks::<DOCUMENT_BYTES>();
    let mut found = Found::nothing();
    for d in documents {
        found = found.join(read_document(d, operation, receiving, represented));
    }
    found
}

// What is found in the documents of a body whose groups are good.
pub fn read_groups(body: &[u8], operation: u8, receiving: u16, represented: &[u16]) -> Found
    requires body_value { every group_good (groups body.now) ≡ true }
    requires body_len_bound { length body.now ≤ longest_body }
    ensures { result ≡ found_in operation receiving represented.now (documents body.now) }
{
    let mut found = Found::nothing();
    for g in body.chunks(GROUP_BYTES) {
        found = found.join(read_documents(&g[HEAD_BYTES..], operation, receiving, represented));
    }
    found
}
