// The groups of a body: where each lies, and whether the body has the shape of a detail.
ghost use Rattle.std.specs.Prelude.{◌≡◌};
ghost use Rattle.packed.specs.Every.{every};
ghost use Rattle.detail.specs.Groups.{group_good, groups, one_operation};

use codes::body::{MARK, operation_of};
use document::{DOCUMENT_BYTES, PRESENTED, RETURNED};

// Free byte, mark, operation and count.
pub const HEAD_BYTES: usize = 4;

// The documents of a full group, and its bytes.
pub const FULL_COUNT: usize = 4;

pub const GROUP_BYTES: usize = HEAD_BYTES + FULL_COUNT * DOCUMENT_BYTES;

// Whether a group is whole and marked as it should be.
pub fn group_good(g: &[u8]) -> bool
    ensures { result ≡ group_good g.now }
{
    let [_, MARK, operation, count, documents @ ..] = g else {
        return false;
    };
    let count = *count as usize;
    ((*operation == PRESENTED) | (*operation == RETURNED))
        & (1..=FULL_COUNT).contains(&count)
        & (documents.len() == count * DOCUMENT_BYTES)
}

// What the heads of all groups say together.
#[derive(Clone, Copy)]
pub struct Heads {
    pub good: bool,
    pub one: bool,
}

// Whether every group is good, and whether all have one operation: one pass over the heads.
pub fn read_heads(body: &[u8]) -> Heads
    ensures good { result.good ≡ every group_good (groups body.now) }
    ensures one { result.one ≡ one_operation body.now }
{
    let operation = operation_of(body);
    let mut good = true;
    let mut one = true;
    for g in body.chunks(GROUP_BYTES) {
        good &= group_good(g);
        one &= operation_of(g) == operation;
    }
    Heads { good, one }
}
