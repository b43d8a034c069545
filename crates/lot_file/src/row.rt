// A row of the table of contents, and its ten bytes.
ghost use Rattle.std.specs.Prelude.{◌≡◌, suc, ◌&&◌, ◌≤◌, ◌<◌, eqb, length};
ghost use Rattle.std.proofs.lemmas.List.Edits.{sets};
ghost use Rattle.packed.specs.Pieces.{cut};
ghost use Rattle.lot_file.specs.Layout.{row_bytes, table_bytes, bytes_of};
ghost use Rattle.lot_file.specs.Good.{row_in, order_number, row_good};
ghost use Rattle.lot_file.specs.Inner.Moving.{row_at};

use message::header::LARGEST_ORDER_NUMBER;
use packed::writing::copy;

pub const ROW_BYTES: usize = 10;

const LARGEST_NUMBER: usize = LARGEST_ORDER_NUMBER as usize;

pub type RowBytes = [u8; ROW_BYTES];

// Order number, where the body starts, how many documents it has.
#[derive(Clone, Copy)]
pub struct Row {
    pub number: usize,
    pub start: usize,
    pub documents: usize,
}

// The row that ten bytes are. A function and no `From`, which has no clauses for the two bounds; `bytes_of` is the way back.
pub fn row_in(bytes: &RowBytes) -> Row
    ensures row { result ≡ row_in bytes.now }
    ensures start { result.start < 4294967296 }
    ensures documents { result.documents < 4294967296 }
{
    let [n1, n0, s3, s2, s1, s0, d3, d2, d1, d0] = *bytes;
    Row {
        number: u16::from_be_bytes([n1, n0]) as usize,
        start: u32::from_be_bytes([s3, s2, s1, s0]) as usize,
        documents: u32::from_be_bytes([d3, d2, d1, d0]) as usize,
    }
}

// The last two and four bytes of its numbers.
fn bytes_of(row: Row) -> RowBytes
    ensures { result ≡ bytes_of row }
{
    let [_, _, _, _, _, _, n1, n0] = row.number.to_be_bytes();
    let [_, _, _, _, s3, s2, s1, s0] = row.start.to_be_bytes();
    let [_, _, _, _, d3, d2, d1, d0] = row.documents.to_be_bytes();
    [n1, n0, s3, s2, s1, s0, d3, d2, d1, d0]
}

// The first rows of a slice.
pub fn first_rows(file: &[u8], count: usize) -> &[RowBytes]
    requires { table_bytes count ≤ length file.now }
    ensures rows { result.now ≡ cut row_bytes count file.now }
    ensures count { length result.now ≡ count }
{
    let (rows, _) = file.as_chunks::<ROW_BYTES>();
    &rows[..count]
}

// The row at a place.
pub fn row_at(file: &[u8], place: usize) -> Row
    requires { table_bytes (suc place) ≤ length file.now }
    ensures row { result ≡ row_at place file.now }
    ensures start { result.start < 4294967296 }
    ensures documents { result.documents < 4294967296 }
{
    let (rows, _) = file.as_chunks::<ROW_BYTES>();
    row_in(&rows[place])
}

pub fn put_row(file: &mut [u8], place: usize, row: Row)
    requires { table_bytes (suc place) ≤ length file.old }
    ensures { file.new ≡ sets file.old (table_bytes place) (bytes_of row) }
{
    copy(file, place * ROW_BYTES, &bytes_of(row));
}

// Asked of a caller's number too, which may have 32 bits; a header's, in `message`, has 16.
pub fn order_number(n: usize) -> bool
    ensures { result ≡ order_number n }
{
    (1..=LARGEST_NUMBER).contains(&n)
}

// Whether a row may stand where the body before it ends at `start`.
pub fn row_good(row: Row, most: usize, start: usize) -> bool
    ensures { result ≡ row_good most row && eqb row.start start }
{
    order_number(row.number) && (1..=most).contains(&row.documents) && row.start == start
}
