// The second pass over a tray: the commissions, written into the documents. It asks no document whether it is good, which
// the first pass has done.
ghost use Rattle.std.specs.Prelude.{◌≡◌, ◌%◌, length, map};
ghost use mathlib.Core.List.{flat_map};
ghost use Rattle.document.specs.Limits.{document_bytes};
ghost use Rattle.document.specs.Part.{documents_of};
ghost use Rattle.tariff.specs.Tariff.{row_in};
ghost use Rattle.tariff.specs.Tray.{filled_document};

use crate::TARIFF_KEY;
use crate::due::due;
use crate::good::Tariff;
use document::{COMMISSION, COMMISSION_BYTES, DOCUMENT_BYTES, NOMINAL, NOMINAL_BYTES};
use packed::number::{number, number2, number4};
use packed::writing::put;

// Writes the commission of a document, unless its key keeps the typed one or is unknown.
fn fill_document(tariff: &Tariff, d: &mut [u8])
    requires { length d.old ≡ document_bytes }
    ensures { d.new ≡ filled_document (map row_in tariff.now.rows.now) d.old }
{
    let key = u32::from(number2(d, TARIFF_KEY));
    if key != 0 {
        let nominal = number(d, NOMINAL, NOMINAL_BYTES);
        let typed = u64::from(number4(d, COMMISSION));
        let rule = tariff.rule_of(key);
        put(d, COMMISSION, COMMISSION_BYTES, due(rule, nominal, typed));
    }
}

// Writes those of all documents. They are lent by their places: of a slice that was lent in chunks nothing is known
// afterwards but its length.
pub fn fill(tariff: &Tariff, tray: &mut [u8])
    requires { length tray.old % document_bytes ≡ 0 }
    ensures { tray.new ≡ flat_map (filled_document (map row_in tariff.now.rows.now)) (documents_of tray.old) }
{
    for place in 0..tray.len() / DOCUMENT_BYTES {
        let at = place * DOCUMENT_BYTES;
        fill_document(tariff, &mut tray[at..at + DOCUMENT_BYTES]);
    }
}
