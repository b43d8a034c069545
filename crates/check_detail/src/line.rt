// The line that the program writes, put together in a lent buffer.
ghost use Rattle.std.specs.Prelude.{◌≡◌, ◌≤◌, length};
ghost use Rattle.std.proofs.lemmas.List.Edits.{sets};
ghost use Rattle.check_detail.specs.Line.{line_of, most_line_bytes};

use decimal::put_number;
use detail::checked::Checked;

// Two digits, three numbers of at most twenty digits, each behind a space, and the line feed.
pub const LINE_BYTES: usize = 66;

// Writes the line, and answers how long it is.
pub fn write_line(c: Checked, line: &mut [u8]) -> usize
    requires { most_line_bytes ≤ length line.old }
    ensures written { line.new ≡ sets line.old 0 (line_of c) }
    ensures long { result ≡ length (line_of c) }
    ensures short { result ≤ most_line_bytes }
{
    line[0] = b'0' + c.code / 10 % 10;
    line[1] = b'0' + c.code % 10;
    let nominal_at = put_number(line, 2, c.documents);
    let commission_at = put_number(line, nominal_at, c.nominal);
    let end = put_number(line, commission_at, c.commission);
    line[end] = b'\n';
    end + 1
}
