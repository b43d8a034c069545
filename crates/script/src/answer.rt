// The answer to a line that was read: its words, then the bytes that the call wrote, and a line feed.
ghost use Rattle.std.specs.Prelude.{◌≡◌, ◌+◌, ◌*◌, ◌≤◌, length, drop};
ghost use Rattle.script.specs.Answer.{answer_bytes};
ghost use Rattle.text.specs.Line.{most_room};

use crate::wording::Head;
use calls::report::report;
use centre::end::Centre;
use packed::writing::copy;
use session::report::{Awaited, Report, Tally};
use session::running::{Running, stated};
use session::session::Close;
use text::hex::write_hex;
use text::kind::Kind;

impl Head {
    // The word of a call.
    fn put_kind(&mut self, kind: Kind)
        requires { self.old.at + 8 ≤ 400 }
        ensures { self.new.at ≤ self.old.at + 8 }
    {
        match kind {
            Kind::Start => self.put_text(b"start "),
            Kind::Header => self.put_text(b"header "),
            Kind::Detail => self.put_text(b"detail "),
            Kind::LotTotal => self.put_text(b"lot "),
            Kind::SessionTotal => self.put_text(b"session "),
            Kind::Receive => self.put_text(b"receive "),
            Kind::Reply => self.put_text(b"reply "),
            Kind::Clock => self.put_text(b"clock "),
            Kind::Report => self.put_text(b"report "),
            Kind::Passed => (),
            Kind::Bad => self.put_text(b"bad line"),
        }
    }

    // The end.
    fn put_end(&mut self, near: bool)
        requires { self.old.at + 1 ≤ 400 }
        ensures { self.new.at ≤ self.old.at + 1 }
    {
        self.put_text(if near { b"A" } else { b"B" });
    }

    // How a session stands.
    fn put_close(&mut self, close: Close)
        requires { self.old.at + 8 ≤ 400 }
        ensures { self.new.at ≤ self.old.at + 8 }
    {
        match close {
            Close::Open => self.put_text(b" open"),
            Close::Ordered => self.put_text(b" ordered"),
            Close::Forced => self.put_text(b" forced"),
        }
    }

    // Documents, nominal and commission.
    fn put_running(&mut self, running: Running)
        requires { self.old.at + 63 ≤ 400 }
        ensures { self.new.at ≤ self.old.at + 63 }
    {
        let totals = stated(running);
        self.put_number(totals.documents.0);
        self.put_number(totals.nominal.0);
        self.put_number(totals.commission.0);
    }

    // A direction's lots, and what they gathered.
    fn put_tally(&mut self, tally: Tally)
        requires { self.old.at + 84 ≤ 400 }
        ensures { self.new.at ≤ self.old.at + 84 }
    {
        self.put_number(tally.lots as u64);
        self.put_running(tally.gathered);
    }

    // What awaits a reply.
    fn put_awaited(&mut self, awaited: Awaited)
        requires { self.old.at + 88 ≤ 400 }
        ensures { self.new.at ≤ self.old.at + 88 }
    {
        match awaited {
            Awaited::Neither => self.put_text(b" none"),
            Awaited::SessionTotal => self.put_text(b" session"),
            Awaited::LotTotal(lot) => {
                self.put_text(b" lot");
                self.put_number(lot.number as u64);
                self.put_running(lot.gathered);
            }
        }
    }

    // Everything that a report shows: both directions, how the session stands, the positions, and what awaits a reply.
    fn put_report(&mut self, shown: Report)
        requires { self.old.at + 330 ≤ 400 }
        ensures { self.new.at ≤ self.old.at + 330 }
    {
        self.put_text(b" presented");
        self.put_tally(shown.presented);
        self.put_text(b" received");
        self.put_tally(shown.received);
        self.put_close(shown.close);
        self.put_signed(shown.positions.nominal);
        self.put_signed(shown.positions.commission);
        self.put_awaited(shown.awaited);
    }

    // The number of a call.
    fn put_number_of(&mut self, number: u8)
        requires { self.old.at + 22 ≤ 400 }
        ensures { self.new.at ≤ self.old.at + 22 }
    {
        self.put_text(b" ");
        self.put_code(number);
    }

    // The number of a call, and of what was written if something was.
    fn put_outcome(&mut self, number: u8, written: Option<u64>)
        requires { self.old.at + 330 ≤ 400 }
        ensures { self.new.at ≤ self.old.at + 330 }
    {
        self.put_number_of(number);
        if let Some(written) = written {
            self.put_text(b" @");
            self.put_decimal(written);
            self.put_text(b" ");
        }
    }

    // The number of a clock call, and how the session stands after it.
    fn put_clock(&mut self, number: u8, close: Close)
        requires { self.old.at + 330 ≤ 400 }
        ensures { self.new.at ≤ self.old.at + 330 }
    {
        self.put_number_of(number);
        self.put_close(close);
    }

    // What follows the end in the answer to a call: the seat is the one that the call left; `started` says whether there was a
    // session before, and `written` is the number of what the call wrote, if it wrote something. Where there was no session every
    // call but a start is answered with `none`.
    fn put_rest(
        &mut self,
        kind: Kind,
        started: bool,
        number: u8,
        written: Option<u64>,
        seat: Option<Centre>,
    )
        requires { self.old.at + 330 ≤ 400 }
        ensures { self.new.at ≤ self.old.at + 330 }
    {
        if !started & !matches!(kind, Kind::Start) {
            self.put_text(b" none");
            return;
        }
        match (kind, seat) {
            (Kind::Report, Some(centre)) => self.put_report(report(centre.session)),
            (Kind::Clock, Some(centre)) => self.put_clock(number, centre.session.close),
            _ => self.put_outcome(number, written),
        }
    }
}

// All the words of an answer.
pub fn put_answer(
    kind: Kind,
    near: bool,
    started: bool,
    number: u8,
    written: Option<u64>,
    seat: Option<Centre>,
) -> Head {
    let mut head = Head::new();
    head.put_kind(kind);
    if !matches!(kind, Kind::Passed | Kind::Bad) {
        head.put_end(near);
        head.put_rest(kind, started, number, written, seat);
    }
    head
}

// The length of an answer: its words, two digits a byte, and a line feed; nothing where there are no words.
pub fn answer_bytes(words: usize, shown: usize) -> usize
    requires words_bound { words ≤ 400 }
    requires shown_le_most_room { shown ≤ most_room }
    ensures { result ≡ answer_bytes words shown }
{
    if words == 0 {
        return 0;
    }
    words + 2 * shown + 1
}

// Writes words, the bytes behind them and a line feed at the start of the output.
fn write_words(output: &mut [u8], words: &[u8], shown: &[u8]) -> usize
    requires { length words.now + 2 * length shown.now + 1 ≤ length output.old }
    ensures length { result ≡ length words.now + 2 * length shown.now + 1 }
    ensures kept { drop result output.new ≡ drop result output.old }
{
    let end = words.len() + 2 * shown.len();
    copy(output, 0, words);
    write_hex(output, words.len(), shown);
    output[end] = b'\n';
    end + 1
}

// Writes an answer. What stands behind it keeps its values.
pub fn write_answer(output: &mut [u8], words: &[u8], shown: &[u8]) -> usize
    requires { answer_bytes (length words.now) (length shown.now) ≤ length output.old }
    ensures length { result ≡ answer_bytes (length words.now) (length shown.now) }
    ensures kept { drop result output.new ≡ drop result output.old }
{
    if words.len() == 0 {
        return 0;
    }
    write_words(output, words, shown)
}
