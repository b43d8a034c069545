// A line of a script, read: the word of its call, its end, its numbers and its bytes.
ghost use Rattle.std.specs.Prelude.{◌≡◌, IfSome, MatchOption, List, ℕ, ◌+◌, ◌≤◌, length, take};
ghost use Rattle.text.specs.Word.{words};
ghost use Rattle.text.specs.Got.{fitting, got_of};
ghost use Rattle.text.specs.Memory.{recalled};
ghost use Rattle.text.specs.Kind.{shape_of};
ghost use Rattle.text.specs.Inner.Kind.{Sized};
ghost use Rattle.text.specs.Line.{no_call, is_at, written_under, hex_or_written, room_in, read_call, read_line, said_of};
ghost use Rattle.text.specs.Inner.Line.{Bounded, NumbersRead, DataRead, PartsRead, EndRead, CallRead};

use crate::hex::read_hex;
use crate::kind::{Kind, Shape, Source, is_bad, kind_of, shape_of};
use crate::number::read_number;
use crate::wire::{Memory, recall};
use crate::word::{Split, next_word};

// The longest line, without its line feed.
pub const LONGEST_LINE: usize = 24_000;

// The longest line buffer that may be lent, and the one that is lent where a line says nothing.
pub const MOST_ROOM: usize = 10_412;

// The most numbers of a line: those of a start with 16 entities.
pub const MOST_NUMBERS: usize = 19;

// A line that was read. It says something to the near end, A, or to the far one, B. Of the numbers the first `count` are
// meant, and of the buffer beside it the first `bytes`; `room` is the length of the line buffer. An array with a count, since
// there is no heap: memory is fixed.
#[derive(Clone, Copy)]
pub struct Line {
    pub kind: Kind,
    pub near: bool,
    pub numbers: [u64; MOST_NUMBERS],
    pub count: usize,
    pub bytes: usize,
    pub room: usize,
}

// No call; of a kind that asks for no numbers.
fn no_call(kind: Kind) -> Line
    requires { (shape_of kind).asked ≡ 0 }
    ensures said { (buffer : List ℕ) → said_of result buffer ≡ no_call kind }
    ensures bounds { (most : ℕ) → Bounded most result }
{
    Line {
        kind,
        near: true,
        numbers: [0; MOST_NUMBERS],
        count: 0,
        bytes: 0,
        room: MOST_ROOM,
    }
}

// Numbers or bytes that were read: how many, and the line behind them.
#[derive(Clone, Copy)]
pub struct Read<'a> {
    pub count: usize,
    pub rest: &'a [u8],
}

// The next words as numbers, at most so many, into the places from `first` on; nothing where one is no number.
fn read_numbers<'a>(
    line: &'a [u8],
    most: usize,
    numbers: &mut [u64; MOST_NUMBERS],
    first: usize,
) -> Option<Read<'a>>
    requires { first + most ≤ 19 }
    ensures { NumbersRead (words line.now) most first numbers.old numbers.new result }
{
    let mut rest = line;
    for count in 0..most {
        let Some(next) = next_word(rest) else {
            return Some(Read { count, rest });
        };
        numbers[first + count] = read_number(next.word)?;
        rest = next.rest;
    }
    Some(Read { count: most, rest })
}

// What was written before: the memory, and the bytes that it keeps.
#[derive(Clone, Copy)]
struct Kept<'a> {
    memory: Memory,
    wire: &'a [u8],
}

// What was written under the number of a word.
fn read_written(word: &[u8], kept: Kept, bytes: &mut [u8]) -> Option<usize>
    ensures read { got_of result bytes.new ≡ fitting (length bytes.old) (written_under (recalled kept.entry.memory kept.entry.wire.now) word.now) }
    ensures bound { IfSome result (λ n. n ≤ length bytes.old) }
{
    recall(kept.memory, read_number(word)?, kept.wire, bytes)
}

// A word as bytes: digits, or `@` and the number of what was written.
fn read_word(word: &[u8], kept: Kept, bytes: &mut [u8]) -> Option<usize>
    ensures read { got_of result bytes.new ≡ fitting (length bytes.old) (hex_or_written (recalled kept.entry.memory kept.entry.wire.now) word.now) }
    ensures bound { IfSome result (λ n. n ≤ length bytes.old) }
{
    match word {
        [b'@', number @ ..] => read_written(number, kept, bytes),
        _ => read_hex(word, bytes),
    }
}

// The bytes of a line, if its kind has some.
fn read_bytes<'a>(
    source: Option<Source>,
    line: &'a [u8],
    kept: Kept,
    bytes: &mut [u8],
) -> Option<Read<'a>>
    ensures { DataRead (recalled kept.entry.memory kept.entry.wire.now) (length bytes.old) source (words line.now) bytes.new result }
{
    let Some(source) = source else {
        return Some(Read {
            count: 0,
            rest: line,
        });
    };
    let Split { word, rest } = next_word(line)?;
    let count = match source {
        Source::Hex => read_hex(word, bytes)?,
        Source::HexOrWritten => read_word(word, kept, bytes)?,
    };
    Some(Read { count, rest })
}

// What stands behind the end: all its numbers, an array with a count as in `Line`, and how many bytes it has.
#[derive(Clone, Copy)]
pub struct Parts {
    pub numbers: [u64; MOST_NUMBERS],
    pub count: usize,
    pub bytes: usize,
}

// All that stands behind the end, if it is as the shape says.
fn read_parts(shape: Shape, line: &[u8], kept: Kept, bytes: &mut [u8]) -> Option<Parts>
    requires { Sized shape }
    ensures { PartsRead (recalled kept.entry.memory kept.entry.wire.now) (length bytes.old) shape (words line.now) bytes.new result }
{
    let mut numbers = [0; MOST_NUMBERS];
    let asked = read_numbers(line, shape.asked, &mut numbers, 0)?;
    if asked.count < shape.asked {
        return None;
    }
    let data = read_bytes(shape.source, asked.rest, kept, bytes)?;
    let more = read_numbers(data.rest, shape.more, &mut numbers, shape.asked)?;
    if next_word(more.rest).is_some() {
        return None;
    }
    Some(Parts {
        numbers,
        count: shape.asked + more.count,
        bytes: data.count,
    })
}

// An end of a line: whether it is the near one, and the line behind it.
#[derive(Clone, Copy)]
pub struct End<'a> {
    pub near: bool,
    pub rest: &'a [u8],
}

fn read_end(line: &[u8]) -> Option<End<'_>>
    ensures { EndRead (words line.now) result }
{
    let Split { word, rest } = next_word(line)?;
    match word {
        b"A" => Some(End { near: true, rest }),
        b"B" => Some(End { near: false, rest }),
        _ => None,
    }
}

// The length of the line buffer: what the line says, if it may and does.
fn room_in(shape: Shape, numbers: [u64; MOST_NUMBERS], count: usize) -> u64
    requires sized { Sized shape }
    requires count_in_bounds { count ≤ length numbers }
    ensures { result ≡ room_in shape (take count numbers) }
{
    let asked = shape.asked;
    if shape.room & (count == asked + 1) {
        return numbers[asked];
    }
    MOST_ROOM as u64
}

// A line of this kind, from behind its first word on, if it is one.
fn read_call(kind: Kind, line: &[u8], kept: Kept, bytes: &mut [u8]) -> Option<Line>
    ensures { CallRead (recalled kept.entry.memory kept.entry.wire.now) (length bytes.old) kind (words line.now) bytes.new result }
{
    let End { near, rest } = read_end(line)?;
    let shape = shape_of(kind);
    let parts = read_parts(shape, rest, kept, bytes)?;
    let numbers = parts.numbers;
    let room = room_in(shape, numbers, parts.count);
    if (MOST_ROOM as u64) < room {
        return None;
    }
    Some(Line {
        kind,
        near,
        numbers,
        count: parts.count,
        bytes: parts.bytes,
        room: room as usize,
    })
}

// A line of any bytes, without its line feed.
pub fn read_line(line: &[u8], memory: Memory, wire: &[u8], bytes: &mut [u8]) -> Line
    ensures said { said_of result bytes.new ≡ read_line (recalled memory wire.now) (length bytes.old) line.now }
    ensures bounds { Bounded (length bytes.old) result }
{
    if LONGEST_LINE < line.len() {
        return no_call(Kind::Bad);
    }
    let Some(Split { word, rest }) = next_word(line) else {
        return no_call(Kind::Passed);
    };
    if line[0] == b'#' {
        return no_call(Kind::Passed);
    }
    let kind = kind_of(word);
    if is_bad(kind) {
        return no_call(Kind::Bad);
    }
    match read_call(kind, rest, Kept { memory, wire }, bytes) {
        Some(call) => call,
        None => no_call(Kind::Bad),
    }
}
