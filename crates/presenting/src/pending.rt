// What awaits a reply.
ghost use Rattle.std.specs.Prelude.{◌≡◌};
ghost use Rattle.session.specs.Sending.{is_pending};
ghost use Rattle.session.specs.Reply.{awaited_operation};

use message::reply::ReplyOperation;
use session::effect::Effect;

// Whether a reply is awaited.
pub fn is_pending(effect: Effect) -> bool
    ensures { result ≡ is_pending effect }
{
    !matches!(effect, Effect::Nothing)
}

// The operation of the reply that is awaited; where none is, it is not asked.
pub fn awaited_operation(effect: Effect) -> ReplyOperation
    ensures { result ≡ awaited_operation effect }
{
    match effect {
        Effect::LotTotal(_) => ReplyOperation::LotTotal,
        Effect::SessionTotal => ReplyOperation::SessionTotal,
        Effect::Nothing | Effect::Header(_) | Effect::Detail(_) => ReplyOperation::Other,
    }
}
