// The text of a table, put together in a lent buffer.
ghost use Rattle.std.specs.Prelude.{◌≡◌, ◌*◌, ◌≤◌, length, take};
ghost use Rattle.io.specs.Counts.{IsPrefixLen};
ghost use Rattle.next_days.specs.Text.{table_text, most_line_bytes};

use decimal::put_decimal;

// Writes a line for each entry, and answers how many bytes they are.
pub fn write_table(table: &[u16], text: &mut [u8]) -> usize
    requires { length table.now * most_line_bytes ≤ length text.old }
    ensures counts { IsPrefixLen result text.new }
    ensures written { take result text.new ≡ table_text table.now }
{
    let mut at = 0;
    for entry in table {
        let end = put_decimal(text, at, u64::from(*entry));
        text[end] = b'\n';
        at = end + 1;
    }
    at
}
