// What every body begins with: a free byte, the mark, and the operation, which says what the body is.
ghost use Rattle.std.specs.Prelude.{◌≡◌};
ghost use Rattle.codes.specs.Body.{operation_of};

// The second byte of every body, and of every group of a detail.
pub const MARK: u8 = 0x51;

// The most bytes of a body.
pub const LONGEST_BODY: usize = 10_400;

// The operation byte, 0 where there is none.
pub fn operation_of(body: &[u8]) -> u8
    ensures { result ≡ operation_of body.now }
{
    match body {
        [_, _, operation, ..] => *operation,
        _ => 0,
    }
}
