// The envelope before every body: kind, route and serial.
ghost use Rattle.std.specs.Prelude.{◌≡◌, ◌≤◌, length};
ghost use Rattle.std.proofs.lemmas.List.Edits.{sets};
ghost use Rattle.message.specs.Limits.{envelope_bytes};
ghost use Rattle.message.specs.Envelope.{kind_byte, length_good, envelope_of, read_envelope, envelope_said, written_envelope};

use crate::reply::REPLY_BYTES;
use crate::route::{Route, read_route, write_route};
use codes::body::LONGEST_BODY;
use codes::refusal::Refusal;
use packed::digits::are_digits;
use packed::number::number4;
use packed::writing::put;

pub const ENVELOPE_BYTES: usize = 12;

// The longest message and every reply, with their envelopes.
pub const MESSAGE_ROOM: usize = ENVELOPE_BYTES + LONGEST_BODY;

pub const REPLY_ROOM: usize = ENVELOPE_BYTES + REPLY_BYTES;

pub const LARGEST_SERIAL: u32 = 99_999_999;

// Where route and serial stand.
const ROUTE: usize = 1;

const SERIAL: usize = 8;

// All bytes but the kind.
const DIGITS: usize = ENVELOPE_BYTES - ROUTE;

// What follows an envelope, by its first byte.
#[derive(Clone, Copy)]
pub enum Kind {
    Message = 0x01,
    Reply = 0x02,
}

#[derive(Clone, Copy)]
pub struct Envelope {
    pub route: Route,
    pub serial: u32,
}

fn kind_byte(kind: Kind) -> u8
    ensures { result ≡ kind_byte kind }
{
    kind as u8
}

// Whether envelope and body have a length that the kind allows.
fn length_good(kind: Kind, n: usize) -> bool
    ensures { result ≡ length_good kind n }
{
    match kind {
        Kind::Message => (ENVELOPE_BYTES + 1..=MESSAGE_ROOM).contains(&n),
        Kind::Reply => n == REPLY_ROOM,
    }
}

// Route and serial, whatever their digits.
fn fields_of(bytes: &[u8]) -> Envelope
    requires { envelope_bytes ≤ length bytes.now }
    ensures { result ≡ envelope_of bytes.now }
{
    Envelope {
        route: read_route(bytes, ROUTE),
        serial: number4(bytes, SERIAL),
    }
}

// The envelope of bytes that should be a message, or that should be a reply; otherwise 21.
pub fn read_envelope(bytes: &[u8], kind: Kind) -> Result<Envelope, Refusal>
    ensures { envelope_said result ≡ read_envelope kind bytes.now }
{
    if !length_good(kind, bytes.len()) {
        return Err(Refusal::WrongEnvelope);
    }
    let e = fields_of(bytes);
    if (bytes[0] == kind_byte(kind))
        & are_digits(bytes, ROUTE, DIGITS)
        & (1..=LARGEST_SERIAL).contains(&e.serial)
    {
        Ok(e)
    } else {
        Err(Refusal::WrongEnvelope)
    }
}

// Writes an envelope at the start of the line buffer; every other byte keeps its value.
pub fn write_envelope(line: &mut [u8], kind: Kind, e: Envelope)
    requires { envelope_bytes ≤ length line.old }
    ensures { line.new ≡ sets line.old 0 (written_envelope kind e) }
{
    line[0] = kind_byte(kind);
    write_route(line, ROUTE, e.route);
    put(line, SERIAL, 4, e.serial as u64);
}
