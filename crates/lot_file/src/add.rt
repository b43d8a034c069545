// A lot added to a file, last.
ghost use Rattle.std.specs.Prelude.{◌≡◌, suc, ◌+◌, ◌≤◌, length, IfOk};
ghost use Rattle.session.specs.Limits.{most_lots, most_lot_documents};
ghost use Rattle.lot_file.specs.Layout.{table_bytes};
ghost use Rattle.lot_file.specs.Answers.{answer_number};
ghost use Rattle.lot_file.specs.Adding.{tray_good, add_refusal, added};
ghost use Rattle.lot_file.specs.Inner.Contents.{RoomIn};
ghost use Rattle.lot_file.specs.Inner.Moving.{appended};

use crate::answers::{Answer, LotRefusal};
use crate::asked::asked;
use crate::contents::{Contents, MOST_DOCUMENTS, ROWS};
use crate::row::{Row, first_rows, put_row};
use crate::search::place_of;
use document::DOCUMENT_BYTES;
use packed::writing::copy;

fn tray_good(tray: &[u8]) -> bool
    ensures { result ≡ tray_good most_lot_documents tray.now }
{
    let documents = tray.len() / DOCUMENT_BYTES;
    tray.len() % DOCUMENT_BYTES == 0 && (1..=MOST_DOCUMENTS).contains(&documents)
}

// Writes the row and the body of a lot behind the others.
fn append(file: &mut [u8], contents: Contents, number: usize, tray: &[u8])
    requires used_bound { table_bytes (suc contents.used) ≤ contents.end }
    requires tray_in_bounds { contents.end + length tray.now ≤ length file.old }
    ensures { file.new ≡ appended contents.used contents.end number tray.now file.old }
{
    let Contents { used, end } = contents;
    let row = Row {
        number,
        start: end,
        documents: tray.len() / DOCUMENT_BYTES,
    };
    put_row(file, used, row);
    copy(file, end, tray);
}

// What a slice contains that has room for a lot.
fn room_for(file: &[u8], number: usize, tray: &[u8]) -> Result<Contents, LotRefusal>
    ensures answer { answer_number result ≡ add_refusal most_lots most_lot_documents file.now number tray.now }
    ensures room { IfOk result (λ c. RoomIn most_lots most_lot_documents file.now number tray.now c) }
{
    let contents = asked(file, number)?;
    if !tray_good(tray) {
        return Err(LotRefusal::Wrong);
    }
    if place_of(first_rows(file, contents.used), number).is_some() {
        return Err(LotRefusal::Repeated);
    }
    if ROWS <= contents.used || file.len() - contents.end < tray.len() {
        return Err(LotRefusal::NoRoom);
    }
    Ok(contents)
}

// Adds the lot of a number with the documents of a tray.
pub fn add(file: &mut [u8], number: u32, tray: &[u8]) -> Answer
    ensures answer { answer_number result ≡ add_refusal most_lots most_lot_documents file.old number tray.now }
    ensures after { file.new ≡ added most_lots most_lot_documents file.old number tray.now }
{
    let contents = room_for(file, number as usize, tray)?;
    append(file, contents, number as usize, tray);
    Ok(())
}
