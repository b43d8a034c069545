// The code that each message earns, in the paper's order, and what the message does once its code is known.
ghost use Rattle.std.specs.Prelude.{◌≡◌};
ghost use Rattle.session.specs.Parties.{receiving_route};
ghost use Rattle.receiving.specs.Inner.Earned.{Earns};

use crate::accepted::{number_used, totals_used};
use crate::hearer::Hearer;
use calls::details::detail_code;
use calls::sequence::{header_sequence, lot_total_sequence, session_total_sequence};
use codes::body::operation_of;
use codes::chain::{or_else, when};
use codes::code::Code;
use detail::reading::read_detail;
use message::content::Content;
use message::header::read_header;
use message::route::Route;
use message::total::{read_lot_total, read_session_total};
use session::counters::Lot;
use session::effect::Effect;
use session::hours::receiver_late;
use session::limits::lots_used;
use session::parties::Parties;
use session::running::{adding, stated};

// A message's code, and what it does. Of a refused one it counts only whether it is a lot total, which ends its lot: so the two
// stand side by side, and not one in place of the other.
#[derive(Clone, Copy)]
pub struct Found {
    pub code: Code,
    pub effect: Effect,
}

// The route of what the centre receives. That of what it presents is a definition of its own (session/specs/Parties).
pub fn receiving_route(p: Parties) -> Route
    ensures { result ≡ receiving_route p }
{
    Route {
        date: p.date,
        presenting: p.partner,
        receiving: p.own,
    }
}

// A header that is not read is 01; one that is read goes down the chain.
fn of_header(time: u32, body: &[u8], hearer: &Hearer) -> Found
    ensures { Earns Content.Header time body.now hearer.now.parties hearer.now.running hearer.now.receiving result }
{
    let r = &hearer.receiving;
    let counters = r.counters;
    match read_header(body, receiving_route(hearer.parties)) {
        Ok(header) => Found {
            code: or_else(
                header_sequence(r.ended, counters.current),
                or_else(
                    when(Code::TooLate, receiver_late(time)),
                    or_else(
                        when(
                            Code::Duplicate,
                            number_used(header.number, &r.lots[..counters.lots]),
                        ),
                        when(Code::TooManyLots, lots_used(counters.lots)),
                    ),
                ),
            ),
            effect: Effect::Header(header.number),
        },
        Err(code) => Found {
            code,
            effect: Effect::Nothing,
        },
    }
}

// A detail goes down the chain with what its bytes earn. It is read once.
fn of_detail(time: u32, body: &[u8], hearer: &Hearer) -> Found
    ensures { Earns Content.Detail time body.now hearer.now.parties hearer.now.running hearer.now.receiving result }
{
    let p = &hearer.parties;
    let r = &hearer.receiving;
    let read = read_detail(body, p.own, &p.represented[..p.count]);
    let adds = adding(operation_of(body), read.totals);
    Found {
        code: detail_code(read.code, r.ended, r.counters.current, hearer.running, adds),
        effect: Effect::Detail(adds),
    }
}

// A lot total that is not read has its own code, 01 or 03. In either case the open lot ends.
fn of_lot_total(time: u32, body: &[u8], hearer: &Hearer) -> Found
    ensures { Earns Content.LotTotal time body.now hearer.now.parties hearer.now.running hearer.now.receiving result }
{
    let running = hearer.running;
    let r = &hearer.receiving;
    let counters = r.counters;
    match read_lot_total(body) {
        Ok(total) => Found {
            code: or_else(
                lot_total_sequence(r.ended, total.number, counters.current, running),
                or_else(
                    when(
                        Code::Duplicate,
                        totals_used(total.stated, &r.lots[..counters.lots]),
                    ),
                    when(Code::WrongTotals, !stated(running).same(total.stated)),
                ),
            ),
            effect: Effect::LotTotal(Lot {
                number: total.number,
                gathered: running,
            }),
        },
        Err(code) => Found {
            code,
            effect: Effect::LotTotal(Lot {
                number: 0,
                gathered: running,
            }),
        },
    }
}

// A session total.
fn of_session_total(time: u32, body: &[u8], hearer: &Hearer) -> Found
    ensures { Earns Content.SessionTotal time body.now hearer.now.parties hearer.now.running hearer.now.receiving result }
{
    let r = &hearer.receiving;
    let counters = r.counters;
    match read_session_total(body) {
        Ok(total) => {
            let same = stated(counters.gathered).same(total.stated);
            Found {
                code: or_else(
                    session_total_sequence(r.ended, counters.current),
                    when(
                        Code::WrongTotals,
                        !((counters.lots == total.number as usize) & same),
                    ),
                ),
                effect: Effect::SessionTotal,
            }
        }
        Err(code) => Found {
            code,
            effect: Effect::SessionTotal,
        },
    }
}

// A body, by what it is: a match and no table of functions, since each content has its own clause.
#[tactic(auto, unfolding(session::specs::Receiving::received_code, session::specs::Receiving::received_effect))]
pub fn earned(content: Content, time: u32, body: &[u8], hearer: &Hearer) -> Found
    ensures { Earns content time body.now hearer.now.parties hearer.now.running hearer.now.receiving result }
{
    match content {
        Content::Header => of_header(time, body, hearer),
        Content::Detail => of_detail(time, body, hearer),
        Content::LotTotal => of_lot_total(time, body, hearer),
        Content::SessionTotal => of_session_total(time, body, hearer),
        Content::Unknown => Found {
            code: Code::WrongField,
            effect: Effect::Nothing,
        },
    }
}
