// What a reading of documents finds, one or many: whether none earns 01, 03, 06 or 44, and their totals.
ghost use Rattle.std.specs.Prelude.{◌≡◌};
ghost use Rattle.amounts.specs.Inner.Fits.{SumFits};
ghost use Rattle.document.specs.Inner.Bounds.{Within};
ghost use Rattle.document.specs.Inner.Found.{found, nothing, join};

use crate::digits::all_digits;
use crate::drawee::drawee_served;
use crate::rules::values_good;
use crate::{COMMISSION, DOCUMENT_BYTES, NOMINAL, NOMINAL_BYTES};
use amounts::{Commission, Documents, Nominal, Totals};
use packed::number::{number, number4};

#[derive(Clone, Copy)]
pub struct Found {
    pub fields: bool,
    pub amounts: bool,
    pub served: bool,
    pub something: bool,
    pub totals: Totals,
}

impl Found {
    // What is found where there is no document.
    pub fn nothing() -> Found
        ensures { result ≡ nothing }
    {
        Found {
            fields: true,
            amounts: true,
            served: true,
            something: true,
            totals: Totals::zeros(),
        }
    }

    // What is found in some documents and in some more.
    pub fn join(self, other: Found) -> Found
        requires { SumFits self.totals other.totals }
        ensures { result ≡ join self other }
    {
        Found {
            fields: self.fields & other.fields,
            amounts: self.amounts & other.amounts,
            served: self.served & other.served,
            something: self.something & other.something,
            totals: self.totals.plus(other.totals),
        }
    }
}

// What one document holds, in one reading. Its receiving entity is compared with `receiving`, and its drawee with that and
// the represented ones. The bounds hold of any bytes, so that callers may add before they know whether the digits are good.
// The three that come along stay apart, as in the definitions: each test takes other ones of them, and a struct would be
// taken apart in each.
pub fn read_document(
    d: &[u8; DOCUMENT_BYTES],
    operation: u8,
    receiving: u16,
    represented: &[u16],
) -> Found
    ensures found { result ≡ found operation receiving represented.now d.now }
    ensures bound { Within 1 result.totals }
{
    let digits = all_digits(d);
    let commission = number4(d, COMMISSION) as u64;
    let nominal = number(d, NOMINAL, NOMINAL_BYTES);
    Found {
        fields: digits.fields & values_good(d, operation, receiving),
        amounts: digits.amounts,
        served: drawee_served(d, operation, receiving, represented),
        something: 0 < nominal,
        totals: Totals {
            documents: Documents(1),
            nominal: Nominal(nominal),
            commission: Commission(commission),
        },
    }
}
