// Commissions for C: of one document, and of all documents of a tray, in place.
ghost use Rattle.std.specs.Prelude.{◌≡◌};
ghost use Rattle.tariff.specs.Commission.{commissioned};
ghost use Rattle.tariff.specs.Tray.{filled, tray_after};

use tariff::commission::{CommissionShown, commission, commission_shown};
use tariff::filled::{FillShown, fill_shown};
use tariff::tray::fill_commissions;

// The commission of a tariff key, a nominal and a typed commission.
#[unsafe(no_mangle)]
pub extern "C" fn line_commission(
    tariff: &[u32],
    key: u32,
    nominal: u64,
    typed: u64,
) -> CommissionShown
    ensures { result ≡ commissioned tariff.now key nominal typed }
{
    commission_shown(commission(tariff, key, nominal, typed))
}

// Works out the commissions of a tray of presented documents.
#[unsafe(no_mangle)]
pub extern "C" fn line_fill_commissions(tariff: &[u32], tray: &mut [u8]) -> FillShown
    ensures answer { result ≡ filled tariff.now tray.old }
    ensures after { tray.new ≡ tray_after tariff.now tray.old }
{
    fill_shown(fill_commissions(tariff, tray))
}
