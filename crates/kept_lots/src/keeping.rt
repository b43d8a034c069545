// What a receiving end keeps of a message that it has heard.
use crate::print::{print_code, print_lot};
use centre::end::Centre;
use detail::groups::{GROUP_BYTES, HEAD_BYTES};
use document::DOCUMENT_BYTES;
use lot_file::add::add;
use lot_file::answers::answer_number;
use message::envelope::{ENVELOPE_BYTES, MESSAGE_ROOM};
use packed::pieces::piece_at;
use session::counters::Counters;
use session::limits::MOST_LOT_DOCUMENTS;
use session::running::documents_in;
use std::io;

// A lot file of this many bytes.
const FILE_BYTES: usize = 2_000;

// The documents of a lot, as many as it can have.
const GATHERED_BYTES: usize = MOST_LOT_DOCUMENTS as usize * DOCUMENT_BYTES;

// What 0072 keeps: the documents of the open lot, and the file of the accepted ones.
#[derive(Drop)]
pub struct Kept {
    pub gathered: [u8; GATHERED_BYTES],
    pub file: [u8; FILE_BYTES],
}

// No documents, and a file without a lot.
pub fn nothing_kept() -> Kept {
    Kept {
        gathered: [0u8; GATHERED_BYTES],
        file: [0u8; FILE_BYTES],
    }
}

// Puts documents behind those that are gathered, and tells where the next go.
fn put_documents(gathered: &mut [u8], at: usize, documents: &[u8]) -> usize {
    match gathered.get_mut(at..at.saturating_add(documents.len())) {
        Some(place) => {
            place.copy_from_slice(documents);
            at + documents.len()
        }
        None => at,
    }
}

// Gathers the documents of a detail's body, group by group, without the groups' heads.
fn gather(body: &[u8], gathered: &mut [u8], at: usize) {
    let mut to = at;
    for group in body.chunks(GROUP_BYTES) {
        to = put_documents(gathered, to, &group[HEAD_BYTES.min(group.len())..]);
    }
}

// The counters of what an end receives.
fn counted_at(c: Centre) -> Counters {
    c.session.receiving.counters
}

// Keeps what a message has brought, by what it has changed: a lot more is counted, so the open one goes into the file; or the open
// lot has more documents, so they are gathered behind those before. A repeat, a code and a refusal change neither.
pub fn keep(
    rt: &impl Print,
    before: Centre,
    after: Centre,
    message: &[u8],
    kept: &mut Kept,
) -> io::Result<()> {
    let documents = documents_in(before.receiving);
    if MOST_LOT_DOCUMENTS < documents {
        return Ok(());
    }
    let at = documents as usize * DOCUMENT_BYTES;
    let counters = counted_at(before);
    let now = counted_at(after);
    if counters.lots < now.lots {
        // 0, which no lot has, where none is open.
        let number = counters.current.unwrap_or(0) as u32;
        let code = answer_number(add(&mut kept.file, number, piece_at(&kept.gathered, 0, at)));
        print_lot(rt, "kept ", number)?;
        return print_code(rt, code);
    }
    if documents < documents_in(after.receiving) {
        gather(
            piece_at(message, ENVELOPE_BYTES, MESSAGE_ROOM),
            &mut kept.gathered,
            at,
        );
    }
    Ok(())
}
