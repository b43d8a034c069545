// The detail check as C has it: bytes and numbers in, numbers out. The crate detail_c exports it.
ghost use Rattle.std.specs.Prelude.{◌≡◌};
ghost use Rattle.amounts.specs.Totals.{zeros};
ghost use Rattle.detail.specs.Checked.{four_numbers, checked};

use crate::reading::read_detail;
use crate::verdict::Verdict;
use codes::code::code_number;
use codes::refusal::{Refusal, refusal_number};
use document::entities::entities_good;

// Numbers side by side, since this is the C interface.
#[repr(C)]
#[derive(Clone, Copy)]
pub struct Checked {
    pub code: u8,
    pub documents: u64,
    pub nominal: u64,
    pub commission: u64,
}

// The answer to entities outside the limits of a start.
fn wrong_start() -> Checked
    ensures { result ≡ four_numbers 24 zeros }
{
    Checked {
        code: refusal_number(Refusal::WrongStart),
        documents: 0,
        nominal: 0,
        commission: 0,
    }
}

// The check for an own entity of 16 bits. No byte of the body is read where an entity or the body's length is wrong.
fn check(body: &[u8], own: u16, represented: &[u16]) -> Checked
    ensures { result ≡ checked own represented.now body.now }
{
    if !entities_good(own, represented) {
        return wrong_start();
    }
    let Verdict { code, totals } = read_detail(body, own, represented);
    Checked {
        code: code_number(code),
        documents: totals.documents.0,
        nominal: totals.nominal.0,
        commission: totals.commission.0,
    }
}

// The check for any own number of 32 bits, so that one too large for an entity is refused and not cut to 16.
pub fn line_check_detail(body: &[u8], own: u32, represented: &[u16]) -> Checked
    ensures { result ≡ checked own represented.now body.now }
{
    match u16::try_from(own) {
        Ok(own) => check(body, own, represented),
        Err(_) => wrong_start(),
    }
}
