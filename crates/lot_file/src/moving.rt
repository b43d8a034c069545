// A lot's place in a file closed: the rows behind its own move down by one, and the bodies behind its own follow them.
ghost use Rattle.std.specs.Prelude.{◌≡◌, ◌≤◌, ◌<◌, length};
ghost use Rattle.lot_file.specs.Layout.{table_bytes};
ghost use Rattle.lot_file.specs.Inner.Moving.{table_closed, Closable, closed};
ghost use Rattle.lot_file.specs.Inner.Contents.{most_rows};

use crate::row::{Row, put_row, row_at};
use document::DOCUMENT_BYTES;

// Moves the rows behind a place, of so many in all, down by one. The first of their bodies now starts at `start`.
fn close_rows(file: &mut [u8], place: usize, used: usize, start: usize)
    requires place_lt_used { place < used }
    requires used_le_most_rows { used ≤ most_rows }
    requires used_in_bounds { table_bytes used ≤ length file.old }
    requires start_bound { start < 4294967296 }
    ensures { file.new ≡ table_closed place used start file.old }
{
    let mut next = start;
    for i in place..used - 1 {
        let row = row_at(file, i + 1);
        put_row(file, i, Row { start: next, ..row });
        next += row.documents * DOCUMENT_BYTES;
    }
    let unused = Row {
        number: 0,
        start: 0,
        documents: 0,
    };
    put_row(file, used - 1, unused);
}

// Closes the place of a row's lot, among so many used rows whose last body ends at `end`: the three numbers of `Closable`.
pub fn close(file: &mut [u8], place: usize, used: usize, end: usize)
    requires { Closable place used end file.old }
    ensures { file.new ≡ closed place used end file.old }
{
    let Row {
        start,
        documents,
        ..
    } = row_at(file, place);
    let behind = start + documents * DOCUMENT_BYTES;
    close_rows(file, place, used, start);
    file.copy_within(behind..end, start);
}
