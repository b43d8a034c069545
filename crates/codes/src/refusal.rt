// Why a call was turned away, with everything left as it was.
ghost use Rattle.std.specs.Prelude.{◌≡◌};
ghost use Rattle.codes.specs.Refusal.{refusal_number};

#[derive(Clone, Copy, PartialEq, Eq)]
pub enum Refusal {
    TimePastDay = 20,
    WrongEnvelope = 21,
    UnknownReply = 22,
    ShortBuffer = 23,
    WrongStart = 24,
    WrongOutgoing = 25,
    EarlierTime = 30,
    OutsideHours = 31,
    Closed = 32,
    OtherSession = 33,
    ReplyAwaited = 34,
    UnexpectedSerial = 35,
    NoSerialLeft = 36,
}

// The paper's number.
pub fn refusal_number(r: Refusal) -> u8
    ensures { result ≡ refusal_number r }
{
    r as u8
}
