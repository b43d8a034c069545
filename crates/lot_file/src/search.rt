// A lot looked for by its order number.
ghost use Rattle.std.specs.Prelude.{◌≡◌, map};
ghost use Rattle.lot_file.specs.Good.{row_in, numbers_of};
ghost use Rattle.lot_file.specs.Inner.Search.{place_found};

use crate::row::{RowBytes, row_in};

// The place of the first row that has a number.
pub fn place_of(rows: &[RowBytes], number: usize) -> Option<usize>
    ensures { result ≡ place_found number (numbers_of (map row_in rows.now)) }
{
    rows.iter().position(|row| number == row_in(row).number)
}
