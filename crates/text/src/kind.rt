// The kinds of lines, and what stands in a line of each.
ghost use Rattle.std.specs.Prelude.{◌≡◌};
ghost use Rattle.text.specs.Kind.{kind_of, is_bad, shape, shape_of};
ghost use Rattle.text.specs.Inner.Kind.{Sized};

use crate::word::same;

// What a line is: a call, by its word; or no call, to be passed over or to be answered as a bad one.
#[derive(Clone, Copy)]
pub enum Kind {
    Start,
    Header,
    Detail,
    LotTotal,
    SessionTotal,
    Receive,
    Reply,
    Clock,
    Report,
    Passed,
    Bad,
}

// Where the bytes of a line stand.
#[derive(Clone, Copy)]
pub enum Source {
    Hex,
    HexOrWritten,
}

// What follows the end in a line of a kind: so many numbers, bytes, and at most so many numbers more, of which one may be the
// room of the line buffer.
#[derive(Clone, Copy)]
pub struct Shape {
    pub asked: usize,
    pub source: Option<Source>,
    pub more: usize,
    pub room: bool,
}

fn shaped(asked: usize, source: Option<Source>, more: usize, room: bool) -> Shape
    requires { Sized (shape asked source more room) }
    ensures shape { result ≡ shape asked source more room }
    ensures bound { Sized result }
{
    Shape {
        asked,
        source,
        more,
        room,
    }
}

pub fn shape_of(kind: Kind) -> Shape
    ensures shape { result ≡ shape_of kind }
    ensures bound { Sized result }
{
    match kind {
        Kind::Start => shaped(3, None, 16, false),
        Kind::Header => shaped(4, None, 1, true),
        Kind::Detail => shaped(2, Some(Source::Hex), 1, true),
        Kind::LotTotal => shaped(1, None, 1, true),
        Kind::SessionTotal => shaped(1, None, 1, true),
        Kind::Receive => shaped(1, Some(Source::HexOrWritten), 1, true),
        Kind::Reply => shaped(1, Some(Source::HexOrWritten), 0, false),
        Kind::Clock => shaped(1, None, 0, false),
        Kind::Report => shaped(0, None, 0, false),
        Kind::Passed => shaped(0, None, 0, false),
        Kind::Bad => shaped(0, None, 0, false),
    }
}

// The kind of a line by its first word. A match on byte strings was tried: it leaves a goal for each place at which a word may
// differ, and they found no proof; a test for each word finds its own.
#[tactic(auto, unfolding(crate::specs::Kind::kind_in))]
pub fn kind_of(word: &[u8]) -> Kind
    ensures { result ≡ kind_of word.now }
{
    if same(word, b"start") {
        return Kind::Start;
    }
    if same(word, b"header") {
        return Kind::Header;
    }
    if same(word, b"detail") {
        return Kind::Detail;
    }
    if same(word, b"lot") {
        return Kind::LotTotal;
    }
    if same(word, b"session") {
        return Kind::SessionTotal;
    }
    if same(word, b"receive") {
        return Kind::Receive;
    }
    if same(word, b"reply") {
        return Kind::Reply;
    }
    if same(word, b"clock") {
        return Kind::Clock;
    }
    if same(word, b"report") {
        return Kind::Report;
    }
    Kind::Bad
}

pub fn is_bad(kind: Kind) -> bool
    ensures { result ≡ is_bad kind }
{
    matches!(kind, Kind::Bad)
}
