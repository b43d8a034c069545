// Playing a script: one line, and as many lines as a text has.
ghost use Rattle.std.specs.Prelude.{◌≡◌, IfSome, MatchOption, ◌≤◌, ◌<◌, List, length, take, drop};
ghost use Rattle.text.specs.Memory.{recalled};
ghost use Rattle.text.specs.Held.{Written, Holds};
ghost use Rattle.text.specs.Line.{read_line, most_room};
ghost use Rattle.script.specs.Reading.{named_by, meant};
ghost use Rattle.script.specs.Player.{seat_of, done, ends_of, seat_at, with_seat, wrote, played_at};
ghost use Rattle.script.specs.Play.{filled, played, held_after, held_by, Remembers, longest_answer, Done, ReadOf};
ghost use Rattle.script.specs.Inner.Play.{Behind};

use crate::answer::{answer_bytes, put_answer, write_answer};
use crate::asked::Reading;
use crate::player::{Player, act};
use crate::reading::reading_of;
use crate::wording::Head;
use centre::end::Centre;
use text::line::{LONGEST_LINE, MOST_ROOM, read_line};
use text::wire::{Memory, next_number, remember};
use text::word::find_byte;

// The most bytes that stand in a line.
const MOST_BYTES: usize = LONGEST_LINE / 2;

// A line that was played: how many bytes answer it, and the player that it leaves.
#[derive(Clone, Copy)]
pub struct LinePlayed {
    pub player: Player,
    pub written: usize,
}

fn seat_at(player: Player, near: bool) -> Option<Centre>
    ensures { seat_of result ≡ seat_at near (ends_of player) }
{
    if near { player.near } else { player.far }
}

fn with_seat(player: Player, near: bool, seat: Option<Centre>, memory: Memory) -> Player
    ensures outcome { ends_of result ≡ with_seat near (seat_of seat) (ends_of player) }
    ensures memory { result.memory ≡ memory }
{
    if near {
        return Player {
            near: seat,
            memory,
            ..player
        };
    }
    Player {
        far: seat,
        memory,
        ..player
    }
}

// What was written is remembered, if something was.
fn after_writing(memory: Memory, written: &[u8], wire: &mut [u8]) -> Memory
    ensures { (ws : List Written) → Holds memory wire.old ws → Holds result wire.new (held_after memory written.now (length wire.old) ws) }
{
    if written.len() == 0 {
        return memory;
    }
    remember(memory, written, wire)
}

// The number of what was written, if something was.
fn written_number(memory: Memory, written: usize) -> Option<u64> {
    if written == 0 {
        return None;
    }
    Some(next_number(memory))
}

// What was done at a seat: the words that answer it, and how many bytes stand behind them.
#[derive(Clone, Copy)]
pub struct Answered {
    pub seat: Option<Centre>,
    pub head: Head,
    pub written: usize,
}

// Does what was read, and puts the words of its answer. A call writes no more than its buffer has.
fn answer_at(
    seat: Option<Centre>,
    reading: Reading,
    memory: Memory,
    bytes: &[u8],
    line: &mut [u8],
) -> Answered
    ensures outcome { seat_of result.seat ≡ done (named_by reading.asked reading bytes.now) line.old (seat_of seat) }
    ensures sizes { (result.written ≤ length line.old) × (take result.written line.new ≡ wrote (named_by reading.asked reading bytes.now) line.old (seat_of seat)) }
{
    let step = act(seat, reading, bytes, line);
    let written = step.written.min(line.len());
    let number = written_number(memory, written);
    let head = put_answer(
        reading.kind,
        reading.near,
        seat.is_some(),
        step.number,
        number,
        step.seat,
    );
    Answered {
        seat: step.seat,
        head,
        written,
    }
}

// Writes an answer of these words and bytes, if it fits, and says how many bytes were written.
fn emit(output: &mut [u8], head: &Head, shown: &[u8]) -> Option<usize>
    requires { length shown.now ≤ most_room }
    ensures { MatchOption result ((length output.old < longest_answer) × (output.new ≡ output.old)) (λ n. (n ≤ length output.old) × (drop n output.new ≡ drop n output.old)) }
{
    if output.len() < answer_bytes(head.at, shown.len()) {
        return None;
    }
    Some(write_answer(output, &head.bytes[..head.at], shown))
}

// What was read, and its answer; nothing is done where the answer does not fit.
fn play_reading(
    player: Player,
    reading: Reading,
    bytes: &[u8],
    line: &mut [u8],
    output: &mut [u8],
    wire: &mut [u8],
) -> Option<LinePlayed>
    requires { length line.old ≤ most_room }
    ensures done { Done (played_at reading.near (named_by reading.asked reading bytes.now) line.old (ends_of player)) output.old output.new result }
    ensures memory { Remembers player (held_after player.memory (wrote (named_by reading.asked reading bytes.now) line.old (seat_at reading.near (ends_of player))) (length wire.old)) wire.old wire.new result }
{
    let near = reading.near;
    let memory = player.memory;
    let before = seat_at(player, near);
    let answer = answer_at(before, reading, memory, bytes, line);
    let shown = &line[..answer.written];
    let written = emit(output, &answer.head, shown)?;
    let kept = after_writing(memory, shown, wire);
    Some(LinePlayed {
        player: with_seat(player, near, answer.seat, kept),
        written,
    })
}

// The line buffer of a call.
fn filled() -> [u8; MOST_ROOM]
    ensures value { result ≡ filled }
    ensures size { most_room ≡ length result }
{
    [0xee; MOST_ROOM]
}

// One line of any bytes, without its line feed. What stands in it as bytes is read into a lent buffer.
fn play_line(
    player: Player,
    text: &[u8],
    output: &mut [u8],
    wire: &mut [u8],
    bytes: &mut [u8],
) -> Option<LinePlayed>
    ensures done { Done (played (meant (read_line (recalled player.memory wire.old) (length bytes.old) text.now)) (ends_of player)) output.old output.new result }
    ensures memory { Remembers player (held_by player (meant (read_line (recalled player.memory wire.old) (length bytes.old) text.now)) (length wire.old)) wire.old wire.new result }
{
    let reading = reading_of(read_line(text, player.memory, wire, bytes));
    let mut line = filled();
    play_reading(
        player,
        reading,
        &bytes[..reading.bytes],
        &mut line[..reading.room],
        output,
        wire,
    )
}

// Why a text was not played further.
#[derive(Clone, Copy)]
pub enum Stop {
    // All of it was.
    Done,
    // Its last line is not finished.
    Unfinished,
    // The answer to the next line does not fit the output.
    Full,
}

// How many bytes of a text were played, how many bytes of output answer them, and the player that they leave.
#[derive(Clone, Copy)]
pub struct Played {
    pub player: Player,
    pub read: usize,
    pub written: usize,
    pub stop: Stop,
}

// The next line of a text, how much of the text it takes, and whether its rest is still to come and to be passed over.
#[derive(Clone, Copy)]
pub struct Cut<'a> {
    pub line: &'a [u8],
    pub read: usize,
    pub skipping: bool,
}

// The next line of a text. Where more of the text may come, a line without a line feed is not finished, and not cut, unless it
// is too long already; then its rest is passed over.
fn cut_line(text: &[u8], last: bool, skipping: bool) -> Option<Cut<'_>>
    requires { 0 < length text.now }
    ensures { IfSome result (λ cut. (0 < cut.read) × (cut.read ≤ length text.now)) }
{
    let end = find_byte(text, 0, b'\n');
    let line = if skipping { &text[..0] } else { &text[..end] };
    if end < text.len() {
        return Some(Cut {
            line,
            read: end + 1,
            skipping: false,
        });
    }
    if last | skipping | (LONGEST_LINE < end) {
        return Some(Cut {
            line,
            read: end,
            skipping: true,
        });
    }
    None
}

// One line, answered behind so many bytes of output.
fn play_behind(
    player: Player,
    line: &[u8],
    output: &mut [u8],
    count: usize,
    wire: &mut [u8],
    bytes: &mut [u8],
) -> Option<LinePlayed>
    requires { count ≤ length output.old }
    ensures { Behind count output.old output.new result }
{
    play_line(player, line, &mut output[count..], wire, bytes)
}

// Room for the bytes of a line.
fn spare() -> [u8; MOST_BYTES]
    ensures { 12000 ≡ length result }
{
    [0; MOST_BYTES]
}

// The lines of a text, one after another. It stops before a line whose answer does not fit the output, and before one that is
// not finished, unless the text is the last.
pub fn play(player: Player, text: &[u8], last: bool, output: &mut [u8], wire: &mut [u8]) -> Played
    ensures read { ReadOf (length text.now) result }
    ensures written { result.written ≤ length output.old }
    ensures kept { drop result.written output.new ≡ drop result.written output.old }
{
    let mut bytes = spare();
    let mut current = player;
    let mut at: usize = 0;
    let mut count: usize = 0;
    // No `for`: the place jumps by a line that was cut, and a reader is told it (`Played.read`).
    while at < text.len() {
        let Some(cut) = cut_line(&text[at..], last, current.skipping) else {
            return Played {
                player: current,
                read: at,
                written: count,
                stop: Stop::Unfinished,
            };
        };
        let Some(line) = play_behind(current, cut.line, output, count, wire, &mut bytes) else {
            return Played {
                player: current,
                read: at,
                written: count,
                stop: Stop::Full,
            };
        };
        count += line.written;
        current = Player {
            skipping: cut.skipping,
            ..line.player
        };
        at += cut.read;
    }
    Played {
        player: current,
        read: at,
        written: count,
        stop: Stop::Done,
    }
}
