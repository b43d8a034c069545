// Runs cases on the ready documents (01, 'Trays') and prints one line each: the lengths of the two trays in bytes, the two
// cursors, and what the check and the next documents answer. Each document of a tray is marked with the tray it lies in and
// its place there, so that a line tells which documents were handed out.
#![tactic(auto)]

use codes::answer::answer_number;
use outgoing::{Cursors, Trays};
use packed::pieces::piece_at;
use std::io;

const DOCUMENT: usize = 51;

const LONGEST: usize = 20400;

// Marks the first three bytes of each document.
fn mark(tray: &mut [u8], letter: u8) {
    for (i, document) in tray.chunks_exact_mut(DOCUMENT).enumerate() {
        document[0] = letter;
        document[1] = (i / 256 % 256) as u8;
        document[2] = (i % 256) as u8;
    }
}

// Which documents were handed out.
fn print_part(rt: &impl Print, part: &[u8]) -> io::Result<()> {
    match part {
        [b'P', high, low, ..] => print_range(rt, "presentations", [*high, *low], part.len()),
        [b'R', high, low, ..] => print_range(rt, "returns", [*high, *low], part.len()),
        _ => println!(rt; "empty"),
    }
}

// From the place that stands in the first of them.
fn print_range(rt: &impl Print, tray: &str, place: [u8; 2], bytes: usize) -> io::Result<()> {
    let from = u16::from_be_bytes(place) as usize;
    println!(rt; "{tray} {from}..{}", from + bytes / DOCUMENT)
}

// What the two trays answer behind these cursors.
fn print_case(rt: &impl Print, trays: Trays, sent: Cursors) -> io::Result<()> {
    print!(rt; "{:02} ", answer_number(trays.check(sent)))?;
    print_part(rt, trays.next(sent))
}

// One case: trays of these lengths, at most the longest, and these cursors.
fn run(rt: &impl Print, p: usize, r: usize, presented: usize, returned: usize) -> io::Result<()> {
    print!(rt; "{p} {r} {presented} {returned} => ")?;
    let mut presentations = [0u8; LONGEST];
    let mut returns = [0u8; LONGEST];
    mark(&mut presentations, b'P');
    mark(&mut returns, b'R');
    let trays = Trays {
        presentations: piece_at(&presentations, 0, p),
        returns: piece_at(&returns, 0, r),
    };
    let sent = Cursors {
        presentations: presented,
        returns: returned,
    };
    print_case(rt, trays, sent)
}

fn main(rt: HostRuntime) -> io::Result<()> {
    run(&rt, 51, 50, 0, 0)?;
    run(&rt, 51, 51, 0, 2)?;
    run(&rt, 51, 51, 2, 0)?;
    run(&rt, 51, 102, 1, 0)?;
    run(&rt, 0, 0, 0, 0)?;
    run(&rt, 51, 51, 1, 1)?;
    run(&rt, 10251, 10200, 200, 0)?;
    run(&rt, 10251, 10200, 0, 0)?;
    run(&rt, 0, 20400, 0, 150)?;
    run(&rt, 51, 51, 9223372036854775808, 0)?;
    run(&rt, 51, 51, 0, 18446744073709551615)?;
    run(&rt, 50, 51, 0, 0)?;
    run(&rt, 51, 51, 0, 0)?;
    run(&rt, 51, 51, 1, 0)?;
    run(&rt, 10200, 0, 0, 0)?;
    run(&rt, 20400, 0, 199, 0)
}
