// What a slice contains, judged in one pass over its table.
ghost use Rattle.std.specs.Prelude.{◌≡◌, true, ◌≤◌, eqb, length, map, is_some, IfSome};
ghost use Rattle.packed.specs.Every.{every, member, none_above};
ghost use Rattle.lot_file.specs.Good.{row_in, numbers_of, good};
ghost use Rattle.lot_file.specs.Inner.Contents.{most_rows, walked_of, ToldOf};

use crate::row::{ROW_BYTES, RowBytes, first_rows, row_good, row_in};
use crate::search::place_of;
use document::DOCUMENT_BYTES;
use session::limits::{MOST_LOT_DOCUMENTS, MOST_LOTS};

// As many rows as a direction has lots, and the most documents of one: what the calls take.
pub const ROWS: usize = MOST_LOTS;

pub const MOST_DOCUMENTS: usize = MOST_LOT_DOCUMENTS as usize;

// How many rows of a good slice are used, and where the last body ends.
#[derive(Clone, Copy)]
pub struct Contents {
    pub used: usize,
    pub end: usize,
}

// Whether one of the rows so far has a number. None of them has a larger one than `largest`: lots mostly come in the order
// of their numbers, and then no row is looked at.
fn seen(rows: &[RowBytes], largest: usize, number: usize) -> bool
    requires { none_above largest (numbers_of (map row_in rows.now)) ≡ true }
    ensures { result ≡ member number (numbers_of (map row_in rows.now)) }
{
    number <= largest && place_of(rows, number).is_some()
}

// Goes through the used rows. Nothing where one of them is not good.
fn walked(rows: &[RowBytes], most: usize) -> Option<Contents>
    requires { length rows.now ≤ most_rows }
    ensures pass { result ≡ walked_of most (map row_in rows.now) }
    ensures few { IfSome result (λ c. c.used ≤ length rows.now) }
{
    let mut end = rows.len() * ROW_BYTES;
    let mut largest = 0;
    for (used, bytes) in rows.iter().enumerate() {
        let row = row_in(bytes);
        if row.number == 0 {
            return Some(Contents { used, end });
        }
        if !row_good(row, most, end) || seen(&rows[..used], largest, row.number) {
            return None;
        }
        largest = largest.max(row.number);
        end += row.documents * DOCUMENT_BYTES;
    }
    Some(Contents {
        used: rows.len(),
        end,
    })
}

// Whether all are zero. It never stops early: `all`, which does, took six times as long over a table with one row.
fn all_zero(bytes: &[u8]) -> bool
    ensures { result ≡ every (λ b. eqb b 0) bytes.now }
{
    let mut zero = true;
    for b in bytes {
        zero &= *b == 0;
    }
    zero
}

// The contents of a slice with so many rows and lots of at most so many documents. Nothing where the slice is not good. The two
// limits are two parameters of the definition (`good` of specs/Good) and go on to different tests.
pub fn contents_of(file: &[u8], rows: usize, most: usize) -> Option<Contents>
    requires { rows ≤ most_rows }
    ensures verdict { is_some result ≡ good rows most file.now }
    ensures told { IfSome result (λ c. ToldOf rows file.now c) }
{
    let table = rows * ROW_BYTES;
    if file.len() < table {
        return None;
    }
    let contents = walked(first_rows(file, rows), most)?;
    if file.len() < contents.end || !all_zero(&file[contents.used * ROW_BYTES..table]) {
        return None;
    }
    Some(contents)
}
