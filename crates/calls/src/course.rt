// How counters move when the reply to a message is known, at either end.
#![tactic(auto, unfolding(session::specs::Course::advance))]

ghost use Rattle.std.specs.Prelude.{◌≡◌};
ghost use Rattle.session.specs.Running.{empty};
ghost use Rattle.session.specs.Course.{course, reopened, advance, ends};
ghost use Rattle.calls.specs.Inner.Course.{Countable};

use session::counters::{Counters, Course, Lot};
use session::effect::Effect;
use session::running::{Running, empty, gather};

// No documents beside these counters, with this lot open, or none.
fn reopened(current: Option<u16>, counters: Counters) -> Course
    ensures { result ≡ course (reopened current counters) empty }
{
    Course {
        counters: Counters {
            current,
            ..counters
        },
        running: empty(),
    }
}

// An accepted header opens its lot.
fn after_header(number: u16, accepted: bool, before: Course) -> Course
    ensures { result ≡ advance (Effect.Header number) accepted before }
{
    if accepted {
        return reopened(Some(number), before.counters);
    }
    before
}

// An accepted detail adds its documents.
fn after_detail(more: Running, accepted: bool, before: Course) -> Course
    requires { Countable (Effect.Detail more) accepted before }
    ensures { result ≡ advance (Effect.Detail more) accepted before }
{
    if accepted {
        return Course {
            running: gather(before.running, more),
            ..before
        };
    }
    before
}

// A lot total counts its lot, or ends it as not transmitted.
fn after_lot_total(lot: Lot, accepted: bool, before: Course) -> Course
    requires { Countable (Effect.LotTotal lot) accepted before }
    ensures { result ≡ advance (Effect.LotTotal lot) accepted before }
{
    let counters = before.counters;
    if accepted {
        return Course {
            counters: Counters {
                current: None,
                lots: counters.lots + 1,
                gathered: gather(counters.gathered, lot.gathered),
            },
            running: empty(),
        };
    }
    reopened(None, counters)
}

// What a message leaves of counters and running totals, with the code that was replied: arm for arm as in the definition.
pub fn advance(effect: Effect, accepted: bool, before: Course) -> Course
    requires { Countable effect accepted before }
    ensures { result ≡ advance effect accepted before }
{
    match effect {
        Effect::Header(number) => after_header(number, accepted, before),
        Effect::Detail(more) => after_detail(more, accepted, before),
        Effect::LotTotal(lot) => after_lot_total(lot, accepted, before),
        Effect::SessionTotal | Effect::Nothing => before,
    }
}

// Whether a message ends its direction: an accepted session total does.
pub fn ends(effect: Effect, accepted: bool) -> bool
    ensures { result ≡ ends effect accepted }
{
    matches!(effect, Effect::SessionTotal) && accepted
}
