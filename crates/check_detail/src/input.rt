// A body that comes through a reader. Nothing is known of what is read, only how much of the room it takes, and whether a read failed.
ghost use Rattle.std.specs.Prelude.{IfOk, IfErr};
ghost use Rattle.io.specs.Counts.{IsPrefixLen};

use std::io::Read;

// A read failed, behind so many bytes that had come.
#[derive(Clone, Copy)]
pub struct Failed {
    pub count: usize,
}

// Reads until the input ends, the room is full or a read fails, and says how many bytes have come; std's `read_exact` does not
// say so where the input ends before.
pub fn read_input(from: &mut impl Read, input: &mut [u8]) -> Result<usize, Failed>
    ensures came { IfOk result (λ count. IsPrefixLen count input.new) }
    ensures failed { IfErr result (λ failed. IsPrefixLen failed.count input.new) }
{
    let mut count = 0;
    while count < input.len() {
        match from.read(&mut input[count..]) {
            Ok(0) => break,
            Ok(more) => count += more,
            Err(_) => return Err(Failed { count }),
        }
    }
    Ok(count)
}
