// The lines of the evening.
use document::DOCUMENT_BYTES;
use lot_file::answers::{answer_number, find_shown};
use lot_file::find::{body, find};
use lot_file::take_out::take_out;
use std::io;

// Where a document has the last byte of its nominal.
const UNITS: usize = 30;

pub fn print_text(rt: &impl Print, words: &str) -> io::Result<()> {
    print!(rt; "{words}")
}

// A number in two digits, and the line's end.
pub fn print_code(rt: &impl Print, n: u8) -> io::Result<()> {
    println!(rt; "{n:02}")
}

// Something of a lot, by its number.
pub fn print_lot(rt: &impl Print, words: &str, number: u32) -> io::Result<()> {
    print!(rt; "{words}{number}: ")
}

// The last two digits of a nominal.
fn print_units(rt: &impl Print, byte: u8) -> io::Result<()> {
    print!(rt; " {byte:02x}")
}

// Those of a lot's first document and of its last, read from its body.
fn print_ends(rt: &impl Print, documents: &[u8]) -> io::Result<()> {
    if documents.len() < DOCUMENT_BYTES {
        return Ok(());
    }
    print_units(rt, documents[UNITS])?;
    print_units(rt, documents[documents.len() - DOCUMENT_BYTES + UNITS])
}

// Where a lot stands in the file, and which documents are there.
pub fn print_found(rt: &impl Print, file: &[u8], number: u32) -> io::Result<()> {
    let found = find_shown(find(file, number));
    print_lot(rt, "lot ", number)?;
    print!(rt; "start {}, documents {}", found.start, found.documents)?;
    print_ends(rt, body(file, number))?;
    print_text(rt, ", ")?;
    print_code(rt, found.code)
}

pub fn print_taken(rt: &impl Print, file: &mut [u8], number: u32) -> io::Result<()> {
    let code = answer_number(take_out(file, number));
    print_lot(rt, "taken out ", number)?;
    print_code(rt, code)
}
