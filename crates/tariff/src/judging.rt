// The first pass over a tray: what its documents earn, up to the first that earns something.
ghost use Rattle.std.specs.Prelude.{◌≡◌, map};
ghost use Rattle.tariff.specs.Tariff.{row_in};
ghost use Rattle.tariff.specs.Tray.{amount_digits, document_refusal, fill_shown};
ghost use Rattle.tariff.specs.Inner.Judged.{earned_number, judged};

use crate::filled::{Earned, FillRefusal};
use crate::good::Tariff;
use crate::{TARIFF_KEY, TARIFF_KEY_BYTES};
use document::{COMMISSION, COMMISSION_BYTES, DOCUMENT_BYTES, NOMINAL, NOMINAL_BYTES};
use packed::digits::are_digits;
use packed::number::number2;

fn amount_digits(d: &[u8; DOCUMENT_BYTES]) -> bool
    ensures { result ≡ amount_digits d.now }
{
    are_digits(d, NOMINAL, NOMINAL_BYTES) && are_digits(d, COMMISSION, COMMISSION_BYTES)
}

// What a document earns: by its key's digits, by its amounts', by what the tariff says of the key.
fn earned_by(tariff: &Tariff, d: &[u8; DOCUMENT_BYTES]) -> Result<(), Earned>
    ensures { earned_number result ≡ document_refusal (map row_in tariff.now.rows.now) d.now }
{
    if !are_digits(d, TARIFF_KEY, TARIFF_KEY_BYTES) {
        return Err(Earned::WrongKey);
    }
    if !amount_digits(d) {
        return Err(Earned::WrongAmount);
    }
    let key = u32::from(number2(d, TARIFF_KEY));
    if tariff.rule_of(key).is_none() {
        return Err(Earned::UnknownKey);
    }
    Ok(())
}

// Goes through the documents and stops at the first that earns something.
pub fn judge(tariff: &Tariff, documents: &[[u8; DOCUMENT_BYTES]]) -> Result<u64, FillRefusal>
    ensures { fill_shown result ≡ judged (map row_in tariff.now.rows.now) documents.now }
{
    for (place, d) in documents.iter().enumerate() {
        if let Err(earned) = earned_by(tariff, d) {
            return Err(FillRefusal::Document(place as u64, earned));
        }
    }
    Ok(documents.len() as u64)
}
