// Two ends, and what a line that was read does to them.
ghost use Rattle.std.specs.Prelude.{◌≡◌, None, List, [], ℕ, ◌≤◌, length, take};
ghost use Rattle.centre.specs.Turn.{call_of};
ghost use Rattle.text.specs.Held.{Holds};
ghost use Rattle.script.specs.Reading.{named_by};
ghost use Rattle.script.specs.Player.{seat_of, called, begun_at, done, wrote_at, wrote};

use crate::asked::{Asked, Reading};
use centre::call::{Order, perform};
use centre::end::Centre;
use codes::answer::answer_number;
use session::session::Session;
use text::wire::{Memory, nothing};

// Both ends, each a session with its running totals once a start there has succeeded; what unrefused calls wrote; and whether
// the rest of a line that was too long is still to be passed over.
#[derive(Clone, Copy)]
pub struct Player {
    pub near: Option<Centre>,
    pub far: Option<Centre>,
    pub memory: Memory,
    pub skipping: bool,
}

// What a call at an end gives. Its number is the paper's, of a refusal or of a code that stopped a send, as in a `Turn`.
#[derive(Clone, Copy)]
pub struct Step {
    pub number: u8,
    pub written: usize,
    pub seat: Option<Centre>,
}

// Two ends with no session, and nothing written.
pub fn fresh() -> Player
    ensures { (result.near ≡ None) × (result.far ≡ None) × ((wire : List ℕ) → Holds result.memory wire []) }
{
    Player {
        near: None,
        far: None,
        memory: nothing(),
        skipping: false,
    }
}

// A call of 01 at an end; one without a session stays as it is.
fn call_at(seat: Option<Centre>, order: Order, bytes: &[u8], line: &mut [u8]) -> Step
    ensures outcome { seat_of result.seat ≡ called (call_of order bytes.now) line.old (seat_of seat) }
    ensures written { take result.written line.new ≡ wrote_at (call_of order bytes.now) line.old (seat_of seat) }
{
    let Some(centre) = seat else {
        return untouched(seat);
    };
    let turn = perform(centre, order, bytes, line);
    Step {
        number: turn.number,
        written: turn.written,
        seat: Some(turn.centre),
    }
}

// An end that stays as it is.
fn untouched(seat: Option<Centre>) -> Step
    ensures { (result.seat ≡ seat) × (result.written ≡ 0) }
{
    Step {
        number: 0,
        written: 0,
        seat,
    }
}

// A start at an end; a refused one leaves what was there.
fn start_at(seat: Option<Centre>, date: u32, own: u16, partner: u16, represented: &[u16]) -> Step
    ensures outcome { seat_of result.seat ≡ begun_at date own partner represented.now (seat_of seat) }
    ensures written { result.written ≡ 0 }
{
    let start = Session::start(date, own, partner, represented);
    let number = answer_number(start.answer);
    if number == 0 {
        return Step {
            number,
            written: 0,
            seat: Some(Centre::begun(start.session)),
        };
    }
    Step {
        number,
        written: 0,
        seat,
    }
}

// What a line that was read does at its end. A match chooses: what is asked is read from a text.
pub fn act(seat: Option<Centre>, reading: Reading, bytes: &[u8], line: &mut [u8]) -> Step
    ensures outcome { seat_of result.seat ≡ done (named_by reading.asked reading bytes.now) line.old (seat_of seat) }
    ensures written { take result.written line.new ≡ wrote (named_by reading.asked reading bytes.now) line.old (seat_of seat) }
{
    let entities = reading.entities;
    match reading.asked {
        None => untouched(seat),
        Some(Asked::Start(date, own, partner)) => {
            start_at(seat, date, own, partner, &entities[..reading.more])
        }
        Some(Asked::Call(order)) => call_at(seat, order, bytes, line),
    }
}
