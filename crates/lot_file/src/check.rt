// Whether a slice is a lot file.
ghost use Rattle.std.specs.Prelude.{◌≡◌};
ghost use Rattle.session.specs.Limits.{most_lots, most_lot_documents};
ghost use Rattle.lot_file.specs.Reading.{check_refusal};
ghost use Rattle.lot_file.specs.Answers.{answer_number};

use crate::answers::{Answer, LotRefusal};
use crate::contents::{MOST_DOCUMENTS, ROWS, contents_of};

pub fn check(file: &[u8]) -> Answer
    ensures { answer_number result ≡ check_refusal most_lots most_lot_documents file.now }
{
    match contents_of(file, ROWS, MOST_DOCUMENTS) {
        Some(_) => Ok(()),
        None => Err(LotRefusal::Wrong),
    }
}
