// The header, which opens a lot.
ghost use Rattle.std.specs.Prelude.{◌≡◌, ◌≤◌, length};
ghost use Rattle.std.proofs.lemmas.List.Edits.{sets};
ghost use Rattle.codes.specs.declared.code.Code.{Code};
ghost use Rattle.codes.specs.Code.{code_number};
ghost use Rattle.codes.specs.Field.{table_good};
ghost use Rattle.message.specs.Limits.{first_position, header_bytes};
ghost use Rattle.message.specs.Layout.{read_body, written_body};
ghost use Rattle.message.specs.Header.{time_of_day, order_number, header_fields, header, header_values, header_of, header_said, header_sendable};

use crate::content::HEADER;
use crate::layout::{FIELDS, fixed_shape, write_head};
use crate::route::{Route, read_route, write_route};
use codes::code::Code;
use packed::digits::are_digits;
use packed::number::{number, number2, number4};
use packed::writing::put;

pub const HEADER_BYTES: usize = 19;

// Where the fields stand after the time, which is the first.
const ROUTE: usize = 7;

const CENTRE: usize = 14;

const NUMBER: usize = 16;

const ZERO: usize = 18;

// The bytes of all fields.
const DIGITS: usize = HEADER_BYTES - FIELDS;

// The largest order number.
pub const LARGEST_ORDER_NUMBER: u16 = 9999;

// The largest centre.
const LARGEST_CENTRE: u16 = 9999;

// What a header says beside its route. The time is hhmmsscc.
#[derive(Clone, Copy)]
pub struct Header {
    pub time: u32,
    pub centre: u16,
    pub number: u16,
}

fn time_of_day(v: u32) -> bool
    ensures { result ≡ time_of_day v }
{
    (v / 1_000_000 < 24) & (v / 10_000 % 100 < 60) & (v / 100 % 100 < 60)
}

fn order_number(v: u16) -> bool
    ensures { result ≡ order_number v }
{
    (1..=LARGEST_ORDER_NUMBER).contains(&v)
}

// Whether a presenter may write a header of these.
#[tactic(auto, unfolding(crate::specs::Header::header_sendable))]
pub fn header_sendable(time: u32, centre: u16, number: u16) -> bool
    ensures { result ≡ header_sendable time centre number }
{
    time_of_day(time) & (centre <= LARGEST_CENTRE) & order_number(number)
}

// The three numbers, whatever their digits.
fn fields_of(body: &[u8]) -> Header
    requires { header_bytes ≤ length body.now }
    ensures { result ≡ header_of body.now }
{
    Header {
        time: number4(body, FIELDS),
        centre: number2(body, CENTRE),
        number: number2(body, NUMBER),
    }
}

// Whether every field is good, of a body whose numbers are these.
fn fields_good(body: &[u8], h: Header, route: Route) -> bool
    requires header_bytes_in_bounds { header_bytes ≤ length body.now }
    requires h_value { h ≡ header_of body.now }
    ensures { result ≡ table_good first_position (code_number Code.WrongField) (header_fields route) body.now }
{
    are_digits(body, FIELDS, DIGITS)
        & time_of_day(h.time)
        & (read_route(body, ROUTE) == route)
        & order_number(h.number)
        & (number(body, ZERO, 1) == 0)
}

// A received body, in a direction of this route; otherwise 01.
pub fn read_header(body: &[u8], route: Route) -> Result<Header, Code>
    ensures { header_said route result ≡ read_body (header route) body.now }
{
    if !fixed_shape(body, HEADER_BYTES, HEADER) {
        return Err(Code::WrongField);
    }
    let h = fields_of(body);
    if fields_good(body, h, route) {
        Ok(h)
    } else {
        Err(Code::WrongField)
    }
}

// Writes a header's body at the start of `out`; every other byte keeps its value.
pub fn write_header(out: &mut [u8], route: Route, h: Header)
    requires { header_bytes ≤ length out.old }
    ensures { out.new ≡ sets out.old 0 (written_body (header route) (header_values route h)) }
{
    write_head(out, HEADER);
    put(out, FIELDS, 4, h.time as u64);
    write_route(out, ROUTE, route);
    put(out, CENTRE, 2, h.centre as u64);
    put(out, NUMBER, 2, h.number as u64);
    put(out, ZERO, 1, 0);
}
