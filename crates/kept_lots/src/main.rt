// An evening at whose end a drawee bank collects: 0081 presents lots to 0072, which keeps the documents of every accepted lot in
// a lot file. What it hears tells it what to keep: documents that were counted are gathered, and a lot that was counted is added to
// the file, once, however often its total comes. Each line tells the code of a reply, or what became of the file.
#![tactic(auto)]

mod keeping;
mod line;
mod print;

use crate::keeping::{Kept, nothing_kept};
use crate::line::{both_started, say};
use crate::print::{print_found, print_taken};
use centre::call::Order;
use document::{DOCUMENT_BYTES, PRESENTED_NUMBER};
use exchange::round::Round;
use packed::pieces::piece_at;
use session::session::Session;
use std::io;

const MOMENT: u32 = 21_00_00_00;

// What 0081 says: the header of a lot, by its order number; a detail, by its first document and how many it has; or a lot total,
// whose first reply may be lost.
#[derive(Clone, Copy)]
enum Step {
    Header(u16),
    Detail { first: u8, count: u8 },
    LotTotal { lost: bool },
}

// Lot 7 has a detail of two documents and one of five. Lot 8 has a document of a bank that 0072 does not serve, and one that is
// accepted. Lot 9 has that one again, and so the totals of a lot that was accepted.
const STEPS: [Step; 11] = [
    Step::Header(7),
    Step::Detail { first: 0, count: 2 },
    Step::Detail { first: 2, count: 5 },
    Step::LotTotal { lost: false },
    Step::Header(8),
    Step::Detail { first: 7, count: 1 },
    Step::Detail { first: 8, count: 1 },
    Step::LotTotal { lost: true },
    Step::Header(9),
    Step::Detail { first: 8, count: 1 },
    Step::LotTotal { lost: true },
];

fn order_of(step: Step) -> Order {
    match step {
        Step::Header(number) => Order::Header(Session::OPENING, MOMENT, 1, number),
        Step::Detail { .. } => Order::Detail(Session::OPENING, PRESENTED_NUMBER),
        Step::LotTotal { .. } => Order::LotTotal(Session::OPENING),
    }
}

// The documents of a detail.
fn part_of<'a>(documents: &'a [u8], step: Step) -> &'a [u8] {
    match step {
        Step::Detail { first, count } => piece_at(
            documents,
            first as usize * DOCUMENT_BYTES,
            count as usize * DOCUMENT_BYTES,
        ),
        _ => &[],
    }
}

// The evening, step by step.
fn present(rt: &impl Print, ends: Round, documents: &[u8], kept: &mut Kept) -> io::Result<Round> {
    let mut at = ends;
    for step in STEPS {
        let lost = matches!(step, Step::LotTotal { lost: true });
        at = say(rt, at, order_of(step), part_of(documents, step), lost, kept)?;
    }
    Ok(at)
}

// The bank of lot 7 collects it.
fn collect(rt: &impl Print, file: &mut [u8]) -> io::Result<()> {
    print_found(rt, file, 7)?;
    print_found(rt, file, 8)?;
    print_found(rt, file, 9)?;
    print_taken(rt, file, 7)?;
    print_found(rt, file, 7)?;
    print_found(rt, file, 8)
}

// All documents of the evening.
fn evening(rt: &impl Print, kept: &mut Kept) -> io::Result<()> {
    let documents =
        b"\x00\x00\x00\x00\x01\x00\x00\x02\x43\x41\x57\x14\x03\x00\x81\x01\x10\x28\x00\x72\x08\x00\x81\x01\x10\x00\x00\x00\x01\x50\x01\x00\x72\x01\x10\x00\x00\x12\x34\x56\x01\x00\x01\x00\x00\x00\x30\x00\x00\x00\x00\x00\x00\x00\x00\x01\x00\x00\x02\x43\x41\x57\x14\x03\x00\x81\x01\x10\x28\x00\x72\x08\x00\x81\x01\x10\x00\x00\x00\x01\x50\x02\x00\x72\x01\x10\x00\x00\x12\x34\x56\x01\x00\x01\x00\x00\x00\x30\x00\x00\x00\x00\x00\x00\x00\x00\x01\x00\x00\x02\x43\x41\x57\x14\x03\x00\x81\x01\x10\x28\x00\x72\x08\x00\x81\x01\x10\x00\x00\x00\x01\x50\x03\x00\x72\x01\x10\x00\x00\x12\x34\x56\x01\x00\x01\x00\x00\x00\x30\x00\x00\x00\x00\x00\x00\x00\x00\x01\x00\x00\x02\x43\x41\x57\x14\x03\x00\x81\x01\x10\x28\x00\x72\x08\x00\x81\x01\x10\x00\x00\x00\x01\x50\x04\x00\x72\x01\x10\x00\x00\x12\x34\x56\x01\x00\x01\x00\x00\x00\x30\x00\x00\x00\x00\x00\x00\x00\x00\x01\x00\x00\x02\x43\x41\x57\x14\x03\x00\x81\x01\x10\x28\x00\x72\x08\x00\x81\x01\x10\x00\x00\x00\x01\x50\x05\x00\x72\x01\x10\x00\x00\x12\x34\x56\x01\x00\x01\x00\x00\x00\x30\x00\x00\x00\x00\x00\x00\x00\x00\x01\x00\x00\x02\x43\x41\x57\x14\x03\x00\x81\x01\x10\x28\x00\x72\x08\x00\x81\x01\x10\x00\x00\x00\x01\x50\x06\x00\x72\x01\x10\x00\x00\x12\x34\x56\x01\x00\x01\x00\x00\x00\x30\x00\x00\x00\x00\x00\x00\x00\x00\x01\x00\x00\x02\x43\x41\x57\x14\x03\x00\x81\x01\x10\x28\x00\x72\x08\x00\x81\x01\x10\x00\x00\x00\x01\x50\x07\x00\x72\x01\x10\x00\x00\x12\x34\x56\x01\x00\x01\x00\x00\x00\x30\x00\x00\x00\x00\x00\x00\x00\x00\x01\x00\x00\x02\x43\x41\x57\x14\x03\x00\x81\x01\x10\x28\x00\x72\x08\x00\x81\x01\x10\x00\x00\x00\x01\x50\x08\x00\x73\x01\x10\x00\x00\x12\x34\x56\x01\x00\x01\x00\x00\x00\x30\x00\x00\x00\x00\x00\x00\x00\x00\x01\x00\x00\x02\x43\x41\x57\x14\x03\x00\x81\x01\x10\x28\x00\x72\x08\x00\x81\x01\x10\x00\x00\x00\x01\x50\x09\x00\x72\x01\x10\x00\x00\x12\x34\x56\x01\x00\x01\x00\x00\x00\x30\x00\x00\x00\x00";
    present(rt, both_started(), documents, kept)?;
    Ok(())
}

fn main(rt: HostRuntime) -> io::Result<()> {
    let mut kept = nothing_kept();
    evening(&rt, &mut kept)?;
    collect(&rt, &mut kept.file)
}
