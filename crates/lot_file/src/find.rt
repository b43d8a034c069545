// A lot found by its order number: where it stands, and its documents.
ghost use Rattle.std.specs.Prelude.{◌≡◌};
ghost use Rattle.session.specs.Limits.{most_lots, most_lot_documents};
ghost use Rattle.lot_file.specs.Answers.{find_shown};
ghost use Rattle.lot_file.specs.Reading.{found, body_found};

use crate::answers::{Found, LotRefusal};
use crate::asked::placed;
use crate::row::row_at;
use document::DOCUMENT_BYTES;
use packed::pieces::piece_at;

pub fn find(file: &[u8], number: u32) -> Result<Found, LotRefusal>
    ensures { find_shown result ≡ found most_lots most_lot_documents file.now number }
{
    let lot = placed(file, number as usize)?;
    let row = row_at(file, lot.place);
    Ok(Found {
        start: row.start as u64,
        documents: row.documents as u64,
    })
}

// The documents of a lot, as a part of the slice; nothing where `find` refuses.
pub fn body<'a>(file: &'a [u8], number: u32) -> &'a [u8]
    ensures { result.now ≡ body_found most_lots most_lot_documents file.now number }
{
    match find(file, number) {
        Ok(lot) => piece_at(
            file,
            lot.start as usize,
            lot.documents as usize * DOCUMENT_BYTES,
        ),
        Err(_) => &[],
    }
}
