// The digits of a document: those of its fields and those of its amounts, which earn different codes.
ghost use Rattle.std.specs.Prelude.{◌≡◌};
ghost use Rattle.document.specs.Inner.Digits.{field_digits, amount_digits, digits_to_key};

use crate::{
    COMMISSION, COMMISSION_BYTES, DOCUMENT_BYTES, DRAWEE, NOMINAL, NOMINAL_BYTES, UNREAD_KEY,
};
use packed::digits::{are_digits, is_digits};

// The bytes of the fields between the two amounts.
const LATE_FIELDS: usize = COMMISSION - DRAWEE;

// Whether all fields are digits, and whether both amounts are.
#[derive(Clone, Copy)]
pub struct AllDigits {
    pub fields: bool,
    pub amounts: bool,
}

// How many bytes a sweep reads side by side, and where its second and its third run begin: the third ends where the key
// begins, and shares a byte with the second.
const RUN: usize = 16;

const SECOND_RUN: usize = RUN;

const THIRD_RUN: usize = UNREAD_KEY - RUN;

// Whether everything up to the key is digits. One loop over three runs of this width, without a branch, is what a compiler
// makes the fastest code of.
fn sweep(d: &[u8; DOCUMENT_BYTES]) -> bool
    ensures { result ≡ digits_to_key d.now }
{
    let mut first = true;
    let mut second = true;
    let mut third = true;
    for i in 0..RUN {
        first &= is_digits(d[i]);
        second &= is_digits(d[SECOND_RUN + i]);
        third &= is_digits(d[THIRD_RUN + i]);
    }
    first & second & third
}

// Amounts lie between fields. One sweep serves a good document; only after a fault is it asked where the fault lies.
pub fn all_digits(d: &[u8; DOCUMENT_BYTES]) -> AllDigits
    ensures fields { result.fields ≡ field_digits d.now }
    ensures amounts { result.amounts ≡ amount_digits d.now }
{
    if sweep(d) {
        return AllDigits {
            fields: true,
            amounts: true,
        };
    }
    AllDigits {
        fields: are_digits(d, 0, NOMINAL) & are_digits(d, DRAWEE, LATE_FIELDS),
        amounts: are_digits(d, NOMINAL, NOMINAL_BYTES)
            & are_digits(d, COMMISSION, COMMISSION_BYTES),
    }
}
