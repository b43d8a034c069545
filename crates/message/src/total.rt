// The lot total, which ends a lot, and the session total, which ends a direction: one layout in different widths.
ghost use Rattle.std.specs.Prelude.{◌≡◌, ◌+◌, ◌≤◌, length};
ghost use Rattle.std.proofs.lemmas.List.Edits.{sets};
ghost use Rattle.packed.specs.Part.{part};
ghost use Rattle.packed.specs.Number.{number};
ghost use Rattle.message.specs.Limits.{lot_total_bytes, session_total_bytes};
ghost use Rattle.message.specs.Layout.{read_body, written_body};
ghost use Rattle.message.specs.Inner.Widths.{total_fields, total};
ghost use Rattle.message.specs.Total.{lot_total, session_total, total_values, total_of, total_said};

use crate::layout::{FIELDS, fixed_shape, write_head};
use crate::widths::{LOT, SESSION, Widths};
use amounts::{Commission, Documents, Nominal, Totals};
use codes::code::Code;
use packed::digits::are_digits;
use packed::number::{number, number2, number4};
use packed::writing::put;

pub const LOT_TOTAL_BYTES: usize = 22;

pub const SESSION_TOTAL_BYTES: usize = 25;

// Where the documents stand.
const DOCUMENTS: usize = 5;

// What a total states. The number is a lot's order number, or how many lots a session total counts.
#[derive(Clone, Copy)]
pub struct Total {
    pub number: u16,
    pub stated: Totals,
}

// The documents, whatever their digits. Four bytes, as a session total's, have a reading of their own.
fn documents_of(body: &[u8], w: Widths) -> u64
    requires { 5 + w.documents ≤ length body.now }
    ensures { result ≡ number (part 5 w.documents body.now) }
{
    match w.documents {
        4 => number4(body, DOCUMENTS) as u64,
        width => number(body, DOCUMENTS, width),
    }
}

// The four numbers, whatever their digits.
fn fields_of(body: &[u8], w: Widths) -> Total
    requires { 5 + w.documents + w.nominal + w.commission ≤ length body.now }
    ensures { result ≡ total_of (total_fields w) body.now }
{
    let nominal_at = DOCUMENTS + w.documents;
    let commission_at = nominal_at + w.nominal;
    Total {
        number: number2(body, FIELDS),
        stated: Totals {
            documents: Documents(documents_of(body, w)),
            nominal: Nominal(number(body, nominal_at, w.nominal)),
            commission: Commission(number(body, commission_at, w.commission)),
        },
    }
}

// A received total of these widths; otherwise 01 or 03.
fn read_total(body: &[u8], w: Widths) -> Result<Total, Code>
    ensures { total_said result ≡ read_body (total w) body.now }
{
    let nominal_at = DOCUMENTS + w.documents;
    let amounts = w.nominal + w.commission;
    if !fixed_shape(body, nominal_at + amounts, w.operation) {
        return Err(Code::WrongField);
    }
    if !are_digits(body, FIELDS, 2 + w.documents) {
        return Err(Code::WrongField);
    }
    if !are_digits(body, nominal_at, amounts) {
        return Err(Code::WrongAmount);
    }
    Ok(fields_of(body, w))
}

#[tactic(auto, unfolding(crate::specs::Inner::Widths::total_fields, crate::specs::Total::lot_total_fields))]
pub fn read_lot_total(body: &[u8]) -> Result<Total, Code>
    ensures { total_said result ≡ read_body lot_total body.now }
{
    read_total(body, LOT)
}

#[tactic(auto, unfolding(crate::specs::Inner::Widths::total_fields, crate::specs::Total::session_total_fields))]
pub fn read_session_total(body: &[u8]) -> Result<Total, Code>
    ensures { total_said result ≡ read_body session_total body.now }
{
    read_total(body, SESSION)
}

// Writes a total's body at the start of `out`; every other byte keeps its value.
fn write_total(out: &mut [u8], w: Widths, t: Total)
    requires { 5 + w.documents + w.nominal + w.commission ≤ length out.old }
    ensures { out.new ≡ sets out.old 0 (written_body (total w) (total_values t)) }
{
    let nominal_at = DOCUMENTS + w.documents;
    let commission_at = nominal_at + w.nominal;
    write_head(out, w.operation);
    put(out, FIELDS, 2, t.number as u64);
    put(out, DOCUMENTS, w.documents, t.stated.documents.0);
    put(out, nominal_at, w.nominal, t.stated.nominal.0);
    put(out, commission_at, w.commission, t.stated.commission.0);
}

#[tactic(auto, unfolding(crate::specs::Inner::Widths::total_fields, crate::specs::Total::lot_total_fields))]
pub fn write_lot_total(out: &mut [u8], t: Total)
    requires { lot_total_bytes ≤ length out.old }
    ensures { out.new ≡ sets out.old 0 (written_body lot_total (total_values t)) }
{
    write_total(out, LOT, t);
}

#[tactic(auto, unfolding(crate::specs::Inner::Widths::total_fields, crate::specs::Total::session_total_fields))]
pub fn write_session_total(out: &mut [u8], t: Total)
    requires { session_total_bytes ≤ length out.old }
    ensures { out.new ≡ sets out.old 0 (written_body session_total (total_values t)) }
{
    write_total(out, SESSION, t);
}
