// Lot files for C: a slice is checked, a lot is found, added and taken out.
ghost use Rattle.std.specs.Prelude.{◌≡◌};
ghost use Rattle.session.specs.Limits.{most_lots, most_lot_documents};
ghost use Rattle.lot_file.specs.Reading.{check_refusal, absent_refusal, found};
ghost use Rattle.lot_file.specs.Adding.{add_refusal, added};
ghost use Rattle.lot_file.specs.TakingOut.{taken_out};

use lot_file::add::add;
use lot_file::answers::{FindShown, answer_number, find_shown};
use lot_file::check::check;
use lot_file::find::find;
use lot_file::take_out::take_out;

// Whether a slice is a lot file.
#[unsafe(no_mangle)]
pub extern "C" fn line_lot_file_check(file: &[u8]) -> u8
    ensures { result ≡ check_refusal most_lots most_lot_documents file.now }
{
    answer_number(check(file))
}

// Where the body of a lot starts, and how many documents it has.
#[unsafe(no_mangle)]
pub extern "C" fn line_lot_file_find(file: &[u8], number: u32) -> FindShown
    ensures { result ≡ found most_lots most_lot_documents file.now number }
{
    find_shown(find(file, number))
}

// Adds a lot, last, with the documents of a tray.
#[unsafe(no_mangle)]
pub extern "C" fn line_lot_file_add(file: &mut [u8], number: u32, tray: &[u8]) -> u8
    ensures answer { result ≡ add_refusal most_lots most_lot_documents file.old number tray.now }
    ensures after { file.new ≡ added most_lots most_lot_documents file.old number tray.now }
{
    answer_number(add(file, number, tray))
}

// Takes a lot out.
#[unsafe(no_mangle)]
pub extern "C" fn line_lot_file_take_out(file: &mut [u8], number: u32) -> u8
    ensures answer { result ≡ absent_refusal most_lots most_lot_documents file.old number }
    ensures after { file.new ≡ taken_out most_lots most_lot_documents file.old number }
{
    answer_number(take_out(file, number))
}
