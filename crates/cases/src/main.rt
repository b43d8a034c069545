// Runs the cases of 01 that have no star, clock calls at the edges of the hours; a message that is received with lent running
// totals; and what messages do to running totals, which no script shows. Each line tells the call, its number in two digits,
// and how the session stands or which code the reply has.
#![tactic(auto)]

use centre::call::{clock_call, receive_call};
use centre::end::Centre;
use codes::answer::answer_number;
use lent::example::receive_with_local;
use session::running::stated;
use session::session::Close;
use std::io;

fn word_of(close: Close) -> &'static str {
    match close {
        Close::Open => "open",
        Close::Ordered => "ordered",
        Close::Forced => "forced",
    }
}

// The centre 0072 just started, with 0081 for its partner, on 14 March 2028.
fn started() -> Centre {
    Centre::started(140328, 72, 81)
}

fn clock_case(rt: &impl Print, time: u32) -> io::Result<()> {
    let turn = clock_call(started(), time);
    let close = word_of(turn.centre.session.close);
    println!(rt; "clock {time}: {:02}, {close}", turn.number)
}

// A message as the first of a session, with lent running totals.
fn receive_case(rt: &impl Print, time: u32, message: &[u8]) -> io::Result<()> {
    let centre = started();
    let mut reply = [0u8; 16];
    let outcome = receive_with_local(centre.session, centre.receiving, time, message, &mut reply);
    let number = answer_number(outcome.received.answer);
    println!(rt; "receive {time}: {number:02}, code {:02x}", reply[15])
}

// Receives a message, and prints the running totals that it leaves.
fn heard(rt: &impl Print, c: Centre, message: &[u8]) -> io::Result<Centre> {
    let mut reply = [0u8; 16];
    let turn = receive_call(c, 75_600, message, &mut reply);
    let next = turn.centre;
    let totals = stated(next.receiving);
    println!(rt;
        "running: {} {} {}, code {:02x}",
        totals.documents.0, totals.nominal.0, totals.commission.0, reply[15]
    )?;
    Ok(next)
}

// Running totals are those of the open lot, behind its header: 01's example adds to them, a lot total that is accepted moves
// them, and one of another lot, 8, drops them.
fn running_case(rt: &impl Print, header: &[u8]) -> io::Result<()> {
    let opened = heard(rt, started(), header)?;
    let gathered = heard(
        rt,
        opened,
        b"\x01\x14\x03\x28\x00\x81\x00\x72\x00\x00\x00\x02\x00\x51\x30\x01\x00\x00\x00\x00\x01\x00\x00\x02\x43\x41\x57\x14\x03\x00\x81\x01\x10\x28\x00\x72\x08\x00\x81\x01\x10\x00\x00\x00\x01\x50\x00\x00\x72\x01\x10\x00\x00\x12\x34\x56\x01\x00\x01\x00\x00\x00\x30\x00\x00\x00\x00",
    )?;
    heard(
        rt,
        gathered,
        b"\x01\x14\x03\x28\x00\x81\x00\x72\x00\x00\x00\x03\x00\x51\x80\x00\x07\x00\x00\x01\x00\x00\x00\x00\x00\x01\x50\x00\x00\x00\x00\x00\x00\x30",
    )?;
    heard(
        rt,
        gathered,
        b"\x01\x14\x03\x28\x00\x81\x00\x72\x00\x00\x00\x03\x00\x51\x80\x00\x08\x00\x00\x01\x00\x00\x00\x00\x00\x01\x50\x00\x00\x00\x00\x00\x00\x30",
    )?;
    Ok(())
}

fn main(rt: HostRuntime) -> io::Result<()> {
    clock_case(&rt, 0)?;
    clock_case(&rt, 84_599)?;
    clock_case(&rt, 84_600)?;
    clock_case(&rt, 86_399)?;
    clock_case(&rt, 86_400)?;
    // The header of lot 7 as 0081 sends it, envelope and body.
    let header =
        b"\x01\x14\x03\x28\x00\x81\x00\x72\x00\x00\x00\x01\x00\x51\x01\x21\x00\x00\x00\x14\x03\x28\x00\x81\x00\x72\x00\x01\x00\x07\x00";
    receive_case(&rt, 83_729, header)?;
    receive_case(&rt, 83_730, header)?;
    receive_case(&rt, 84_600, header)?;
    running_case(&rt, header)
}
