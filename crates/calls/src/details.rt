// What a detail earns after the code of its bytes, at either end: its place, then the limit of the lot.
ghost use Rattle.std.specs.Prelude.{◌≡◌, ◌+◌};
ghost use Rattle.codes.specs.Chain.{◌when◌, ◌orelse◌};
ghost use Rattle.codes.specs.Code.{code_number};
ghost use Rattle.session.specs.Limits.{passes_lot};
ghost use Rattle.session.specs.Running.{documents_in};
ghost use Rattle.session.specs.Sequence.{lot_sequence};

use crate::sequence::lot_sequence;
use codes::chain::{or_else, when};
use codes::code::Code;
use session::limits::passes_lot;
use session::running::{Running, documents_in};

// The code of a detail whose bytes earn this one and whose documents add so much.
pub fn detail_code(
    code: Code,
    ended: bool,
    lot: Option<u16>,
    running: Running,
    adds: Running,
) -> Code
    ensures { code_number result ≡ (code_number code orelse lot_sequence ended lot orelse 12 when passes_lot (documents_in running + documents_in adds)) }
{
    or_else(
        code,
        or_else(
            lot_sequence(ended, lot),
            when(
                Code::TooManyDocuments,
                passes_lot(documents_in(running), documents_in(adds)),
            ),
        ),
    )
}
