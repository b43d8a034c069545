// A tray of presented documents that gets the commissions of all of them.
ghost use Rattle.std.specs.Prelude.{◌≡◌};
ghost use Rattle.tariff.specs.Tray.{fill_shown, filled, tray_after};

use crate::filled::FillRefusal;
use crate::filling::fill;
use crate::good::read_tariff;
use crate::judging::judge;
use document::DOCUMENT_BYTES;

// Works out the commission of every document, and says how many there are. The tariff is judged once; documents are judged
// before one is written, so that a refusal leaves every byte.
pub fn fill_commissions(tariff: &[u32], tray: &mut [u8]) -> Result<u64, FillRefusal>
    ensures answer { fill_shown result ≡ filled tariff.now tray.old }
    ensures after { tray.new ≡ tray_after tariff.now tray.old }
{
    let tariff = read_tariff(tariff).ok_or(FillRefusal::WrongTariff)?;
    let (documents, cut) = tray.as_chunks::<DOCUMENT_BYTES>();
    if !cut.is_empty() {
        return Err(FillRefusal::WrongTray);
    }
    let filled = judge(&tariff, documents)?;
    fill(&tariff, tray);
    Ok(filled)
}
