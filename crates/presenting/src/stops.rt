// What stops a header or a detail before it is sent. A total has only its place to ask for, 07.
ghost use Rattle.std.specs.Prelude.{◌≡◌};
ghost use Rattle.codes.specs.Code.{code_number};
ghost use Rattle.session.specs.Sending.{part_adds, header_stop, detail_stop};

use calls::details::detail_code;
use calls::sequence::header_sequence;
use codes::chain::{or_else, when};
use codes::code::Code;
use detail::reading::read_part;
use message::header::header_sendable;
use packed::writing::packed_byte;
use session::hours::presenter_late;
use session::limits::lots_used;
use session::running::{Running, adding};
use session::session::Presenting;

// The first of 01, 07, 10 and 11 that a header of these earns.
#[tactic(auto, unfolding(session::specs::Sending::header_stop))]
pub fn header_stop(time: u32, moment: u32, centre: u16, number: u16, p: Presenting) -> Code
    ensures { code_number result ≡ header_stop time moment centre number p }
{
    or_else(
        when(Code::WrongField, !header_sendable(moment, centre, number)),
        or_else(
            header_sequence(p.ended, p.counters.current),
            or_else(
                when(Code::TooLate, presenter_late(time)),
                when(Code::TooManyLots, lots_used(p.counters.lots)),
            ),
        ),
    )
}

// A part that is to be sent: its code, and what its documents add where it is 00. Both go on to `begin`, which asks the clock
// first, so neither is an error in place of the other.
#[derive(Clone, Copy)]
pub struct PartStop {
    pub code: Code,
    pub adds: Running,
}

// The first of 01, 03, 44, 07 and 12. The part is passed over once.
pub fn detail_stop(
    operation: u8,
    partner: u16,
    part: &[u8],
    running: Running,
    p: Presenting,
) -> PartStop
    ensures code { code_number result.code ≡ detail_stop operation partner part.now running p }
    ensures adds { code_number result.code ≡ 0 → result.adds ≡ part_adds operation part.now }
{
    let read = read_part(operation, part, partner);
    let adds = adding(packed_byte(operation as u64), read.totals);
    PartStop {
        code: detail_code(read.code, p.ended, p.counters.current, running, adds),
        adds,
    }
}
