// What the calls that name a lot ask first: whether the slice and the number are good, and where the lot is.
ghost use Rattle.std.specs.Prelude.{◌≡◌, false, ◌&&◌, IfOk, IfErr};
ghost use Rattle.session.specs.Limits.{most_lots, most_lot_documents};
ghost use Rattle.lot_file.specs.Answers.{refusal_number, answer_number};
ghost use Rattle.lot_file.specs.Good.{order_number, good};
ghost use Rattle.lot_file.specs.Reading.{absent_refusal};
ghost use Rattle.lot_file.specs.Inner.Contents.{AskedIn, PlacedIn};

use crate::answers::LotRefusal;
use crate::contents::{Contents, MOST_DOCUMENTS, ROWS, contents_of};
use crate::row::{first_rows, order_number};
use crate::search::place_of;

// The place of a lot's row, and what the slice contains.
#[derive(Clone, Copy)]
pub struct Lot {
    pub place: usize,
    pub used: usize,
    pub end: usize,
}

// What a slice contains in which a number is looked for.
pub fn asked(file: &[u8], number: usize) -> Result<Contents, LotRefusal>
    ensures good { IfOk result (λ c. AskedIn most_lots most_lot_documents file.now number c) }
    ensures wrong { IfErr result (λ r. (good most_lots most_lot_documents file.now && order_number number ≡ false) × (refusal_number r ≡ 25)) }
{
    let Some(contents) = contents_of(file, ROWS, MOST_DOCUMENTS) else {
        return Err(LotRefusal::Wrong);
    };
    if !order_number(number) {
        return Err(LotRefusal::Wrong);
    }
    Ok(contents)
}

// The lot of a number.
pub fn placed(file: &[u8], number: usize) -> Result<Lot, LotRefusal>
    ensures answer { answer_number result ≡ absent_refusal most_lots most_lot_documents file.now number }
    ensures lot { IfOk result (λ lot. PlacedIn most_lots file.now number lot) }
{
    let Contents { used, end } = asked(file, number)?;
    match place_of(first_rows(file, used), number) {
        Some(place) => Ok(Lot { place, used, end }),
        None => Err(LotRefusal::Absent),
    }
}
