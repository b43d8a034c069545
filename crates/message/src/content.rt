// What a body is: its operation byte alone says it.
ghost use Rattle.std.specs.Prelude.{◌≡◌};
ghost use Rattle.message.specs.Content.{by_operation, content_of};

use codes::body::operation_of;
use document::{PRESENTED, RETURNED};

// The operation bytes of the bodies of a fixed length.
pub const HEADER: u8 = 0x01;

pub const LOT_TOTAL: u8 = 0x80;

pub const SESSION_TOTAL: u8 = 0x90;

// What a body is. Unknown bodies earn 01.
#[derive(Clone, Copy)]
pub enum Content {
    Header,
    Detail,
    LotTotal,
    SessionTotal,
    Unknown,
}

#[tactic(auto, unfolding(crate::specs::Content::by_operation))]
fn by_operation(operation: u8) -> Content
    ensures { result ≡ by_operation operation }
{
    match operation {
        HEADER => Content::Header,
        PRESENTED | RETURNED => Content::Detail,
        LOT_TOTAL => Content::LotTotal,
        SESSION_TOTAL => Content::SessionTotal,
        _ => Content::Unknown,
    }
}

// A body under three bytes has no operation and is unknown.
pub fn content_of(body: &[u8]) -> Content
    ensures { result ≡ content_of body.now }
{
    by_operation(operation_of(body))
}
