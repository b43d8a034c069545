// The reply's body: the operation that answers what was received, and a code.
ghost use Rattle.std.specs.Prelude.{◌≡◌, ◌≤◌, length, is_some, IfSome};
ghost use Rattle.std.proofs.lemmas.List.Edits.{sets};
ghost use Rattle.message.specs.Limits.{reply_bytes};
ghost use Rattle.message.specs.Reply.{operation_byte, operation_for, known_operation, read_reply, reply_said, written_reply_body};

use crate::content::Content;
use codes::body::MARK;
use codes::code::{Code, code_byte, read_code};
use codes::refusal::Refusal;
use packed::writing::copy;

pub const REPLY_BYTES: usize = 4;

// What a reply answers, by its operation byte.
#[derive(Clone, Copy)]
pub enum ReplyOperation {
    Other = 0x86,
    LotTotal = 0x87,
    SessionTotal = 0x97,
}

#[derive(Clone, Copy)]
pub struct Reply {
    pub operation: ReplyOperation,
    pub code: Code,
}

// As a byte, which packs the paper's number.
#[tactic(auto, unfolding(crate::specs::Reply::operation_byte, packed::specs::Writing::packed_byte))]
pub fn operation_byte(o: ReplyOperation) -> u8
    ensures { result ≡ operation_byte o }
{
    o as u8
}

// The operation of a byte, if it is one of the three.
#[tactic(auto, unfolding(crate::specs::Reply::operation_byte, packed::specs::Writing::packed_byte))]
fn read_operation(byte: u8) -> Option<ReplyOperation>
    ensures known { is_some result ≡ known_operation byte }
    ensures carried { IfSome result (λ o. byte ≡ operation_byte o) }
{
    match byte {
        0x86 => Some(ReplyOperation::Other),
        0x87 => Some(ReplyOperation::LotTotal),
        0x97 => Some(ReplyOperation::SessionTotal),
        _ => None,
    }
}

// The operation of the reply to a body that is this.
pub fn operation_for(c: Content) -> ReplyOperation
    ensures { result ≡ operation_for c }
{
    match c {
        Content::LotTotal => ReplyOperation::LotTotal,
        Content::SessionTotal => ReplyOperation::SessionTotal,
        Content::Header | Content::Detail | Content::Unknown => ReplyOperation::Other,
    }
}

// The body of a reply, of any bytes; otherwise 22.
pub fn read_reply(body: &[u8]) -> Result<Reply, Refusal>
    ensures { reply_said result ≡ read_reply body.now }
{
    let [_, MARK, operation, code] = body else {
        return Err(Refusal::UnknownReply);
    };
    let operation = read_operation(*operation).ok_or(Refusal::UnknownReply)?;
    let code = read_code(*code).ok_or(Refusal::UnknownReply)?;
    Ok(Reply { operation, code })
}

// Writes the body of a reply at the start of `out`; every other byte keeps its value.
pub fn write_reply_body(out: &mut [u8], r: Reply)
    requires { reply_bytes ≤ length out.old }
    ensures { out.new ≡ sets out.old 0 (written_reply_body r) }
{
    let body = [0, MARK, operation_byte(r.operation), code_byte(r.code)];
    copy(out, 0, &body);
}
