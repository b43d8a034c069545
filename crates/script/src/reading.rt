// What a line that was read asks of its end.
ghost use Rattle.std.specs.Prelude.{◌≡◌, List, map, ℕ, ◌≤◌, length, drop};
ghost use Rattle.text.specs.Kind.{shape_of};
ghost use Rattle.text.specs.Line.{said_of};
ghost use Rattle.script.specs.Reading.{u16, asked_by, meant, meant_by};

use crate::asked::{Asked, MOST_ENTITIES, Reading};
use centre::call::Order;
use text::kind::Kind;
use text::line::{Line, MOST_NUMBERS};
use text::number::{to_u8, to_u16, to_u32};

// The numbers from the fourth on, as entities.
fn entities_of(numbers: [u64; MOST_NUMBERS]) -> [u16; MOST_ENTITIES]
    requires { length numbers ≡ 19 }
    ensures { result ≡ map u16 (drop 3 numbers) }
{
    let mut all = [0u16; MOST_ENTITIES];
    for i in 0..MOST_ENTITIES {
        all[i] = to_u16(numbers[3 + i]);
    }
    all
}

// What a line of this kind and with these numbers asks.
fn asked_by(kind: Kind, numbers: [u64; MOST_NUMBERS]) -> Option<Asked>
    ensures { result ≡ asked_by kind numbers }
{
    let time = to_u32(numbers[0]);
    match kind {
        Kind::Start => Some(Asked::Start(time, to_u16(numbers[1]), to_u16(numbers[2]))),
        Kind::Header => Some(Asked::Call(Order::Header(
            time,
            to_u32(numbers[1]),
            to_u16(numbers[2]),
            to_u16(numbers[3]),
        ))),
        Kind::Detail => Some(Asked::Call(Order::Detail(time, to_u8(numbers[1])))),
        Kind::LotTotal => Some(Asked::Call(Order::LotTotal(time))),
        Kind::SessionTotal => Some(Asked::Call(Order::SessionTotal(time))),
        Kind::Receive => Some(Asked::Call(Order::Receive(time))),
        Kind::Reply => Some(Asked::Call(Order::Reply(time))),
        Kind::Clock => Some(Asked::Call(Order::Clock(time))),
        Kind::Report => None,
        Kind::Passed => None,
        Kind::Bad => None,
    }
}

// A line that was read, as what it asks.
pub fn reading_of(line: Line) -> Reading
    requires numbers_len { length line.numbers ≡ 19 }
    requires kind_bound { (shape_of line.kind).asked ≤ line.count }
    requires count_bound { line.count ≤ 19 }
    ensures meaning { (buffer : List ℕ) → meant_by result buffer ≡ meant (said_of line buffer) }
    ensures sizes { (result.bytes ≡ line.bytes) × (result.room ≡ line.room) }
{
    let kind = line.kind;
    let numbers = line.numbers;
    Reading {
        kind,
        near: line.near,
        asked: asked_by(kind, numbers),
        entities: entities_of(numbers),
        more: line.count.saturating_sub(3),
        bytes: line.bytes,
        room: line.room,
    }
}
