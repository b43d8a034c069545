// A detail read whole, as its receiver and as its presenter read it.
ghost use Rattle.std.specs.Prelude.{◌≡◌};
ghost use Rattle.packed.specs.Pieces.{pieces};
ghost use Rattle.codes.specs.Code.{code_number};
ghost use Rattle.document.specs.Limits.{document_bytes};
ghost use Rattle.detail.specs.Groups.{documents};
ghost use Rattle.detail.specs.Codes.{receiver_code, presenter_code, part_sendable, accepted_totals};

use crate::documents::{read_documents, read_groups};
use crate::groups::read_heads;
use crate::verdict::{Verdict, judge, refused};
use codes::body::{LONGEST_BODY, operation_of};
use codes::code::Code;
use document::found::Found;
use document::{DOCUMENT_BYTES, MOST_DETAIL_DOCUMENTS, PRESENTED_NUMBER, RETURNED_NUMBER};
use packed::writing::packed_byte;

// A received body. Its documents are passed over once, after its heads.
pub fn read_detail(body: &[u8], own: u16, represented: &[u16]) -> Verdict
    ensures code { code_number result.code ≡ receiver_code own represented.now body.now }
    ensures totals { result.totals ≡ accepted_totals (code_number result.code) (documents body.now) }
{
    if body.is_empty() | (LONGEST_BODY < body.len()) {
        return refused(Code::WrongField);
    }
    let heads = read_heads(body);
    if !heads.good {
        return refused(Code::WrongField);
    }
    if !heads.one {
        return refused(Code::MixedOperations);
    }
    judge(read_groups(body, operation_of(body), own, represented))
}

// Whether a detail may be sent from an operation, the plain number, and a part.
#[tactic(auto, unfolding(crate::specs::Codes::part_sendable))]
pub fn part_sendable(operation: u8, part: &[u8]) -> bool
    ensures { result ≡ part_sendable operation part.now }
{
    let documents = part.len() / DOCUMENT_BYTES;
    ((operation == PRESENTED_NUMBER) | (operation == RETURNED_NUMBER))
        & (part.len() % DOCUMENT_BYTES == 0)
        & (1..=MOST_DETAIL_DOCUMENTS).contains(&documents)
}

// A part that is to be sent, with the operation's plain number. What was found of drawees is left aside.
pub fn read_part(operation: u8, part: &[u8], partner: u16) -> Verdict
    ensures code { code_number result.code ≡ presenter_code operation partner part.now }
    ensures totals { result.totals ≡ accepted_totals (code_number result.code) (pieces document_bytes part.now) }
{
    if !part_sendable(operation, part) {
        return refused(Code::WrongField);
    }
    let found = read_documents(part, packed_byte(operation as u64), partner, &[]);
    judge(Found {
        served: true,
        ..found
    })
}
