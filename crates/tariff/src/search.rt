// What a tariff key says of the commission.
ghost use Rattle.std.specs.Prelude.{◌≡◌, map};
ghost use Rattle.tariff.specs.Tariff.{row_in};
ghost use Rattle.tariff.specs.Commission.{searched};

use crate::row::{ROW_NUMBERS, Row};

// The typed commission is kept, or a row of the tariff decides.
#[derive(Clone, Copy, PartialEq, Eq, Debug)]
pub enum Rule {
    Typed,
    ByRow(Row),
}

// The first row that has a key.
pub fn search(rows: &[[u32; ROW_NUMBERS]], key: u32) -> Option<Row>
    ensures { result ≡ searched (map row_in rows.now) key }
{
    rows.iter()
        .map(|numbers| Row::from(*numbers))
        .find(|row| row.key == key)
}
