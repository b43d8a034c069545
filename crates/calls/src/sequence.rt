// 07: which message has its place where. Each test is told whether the direction has ended and which lot is open; while 07
// is the one code of them all, a lot's own messages need not ask for the end. The two stand side by side, as in the
// definitions: a struct of them would be made anew at each call. A chain of codes is an expression and no `?`, since 00 is a
// code as well.
#![tactic(auto, unfolding(session::specs::Sequence::header_sequence, session::specs::Sequence::lot_sequence, session::specs::Sequence::lot_total_sequence, session::specs::Sequence::session_total_sequence))]

ghost use Rattle.std.specs.Prelude.{◌≡◌};
ghost use Rattle.codes.specs.Code.{code_number};
ghost use Rattle.session.specs.Sequence.{is_open, is_open_lot, between_lots, header_sequence, lot_sequence, lot_total_sequence, session_total_sequence};

use codes::chain::{or_else, when};
use codes::code::Code;
use session::running::{Running, documents_in};

// Whether a lot is open: `is_some` under the name of the definition, as the next is `==`.
fn is_open(lot: Option<u16>) -> bool
    ensures { result ≡ is_open lot }
{
    lot.is_some()
}

// Whether the lot of this number is open.
fn is_open_lot(number: u16, lot: Option<u16>) -> bool
    ensures { result ≡ is_open_lot number lot }
{
    lot == Some(number)
}

// Not after the end, nor while a lot is open.
fn between_lots(ended: bool, lot: Option<u16>) -> Code
    ensures { code_number result ≡ between_lots ended lot }
{
    or_else(
        when(Code::WrongSequence, ended),
        when(Code::WrongSequence, is_open(lot)),
    )
}

pub fn header_sequence(ended: bool, lot: Option<u16>) -> Code
    ensures { code_number result ≡ header_sequence ended lot }
{
    between_lots(ended, lot)
}

// Of a detail, or of a lot total that its presenter is about to write.
pub fn lot_sequence(ended: bool, lot: Option<u16>) -> Code
    ensures { code_number result ≡ lot_sequence ended lot }
{
    when(Code::WrongSequence, !is_open(lot))
}

// Of a lot total that was received.
pub fn lot_total_sequence(ended: bool, number: u16, lot: Option<u16>, running: Running) -> Code
    ensures { code_number result ≡ lot_total_sequence ended number lot running }
{
    or_else(
        when(Code::WrongSequence, !is_open_lot(number, lot)),
        when(Code::WrongSequence, documents_in(running) == 0),
    )
}

// The same as for a header, and yet a definition of its own (session/specs/Sequence).
pub fn session_total_sequence(ended: bool, lot: Option<u16>) -> Code
    ensures { code_number result ≡ session_total_sequence ended lot }
{
    between_lots(ended, lot)
}
