// A lot of a direction: its header, as many details as it has room and the trays have documents for, and its total. That the
// cursors are within the trays is a clause of each step: a struct that kept both would need one that the trays stay.
ghost use Rattle.std.specs.Prelude.{◌≡◌, true, []};
ghost use Rattle.centre.specs.Turn.{call_of};
ghost use Rattle.exchange.specs.Cursors.{moved, within};
ghost use Rattle.document.specs.Part.{count_in};
ghost use Rattle.exchange.specs.Course.{standing_of, past_part, part_sent, detail_sent, filled, round_between, whole_lot, lot_made};

use crate::cursors::{moved, operation};
use crate::fixed::{LOT_PARTS, MOMENT, OFFICE};
use crate::progress::{Lines, Progress, one_more};
use centre::call::Order;
use document::DOCUMENT_BYTES;
use outgoing::{Cursors, Trays};
use session::limits::passes_lot;
use session::running::documents_in;
use session::session::Session;

// The cursors after a part: past it where the presenter counted its documents, else where they were.
fn past_part(trays: Trays, cursors: Cursors, documents: usize, before: u64, after: u64) -> Cursors
    requires { within trays.presentations.now trays.returns.now (moved trays.presentations.now documents cursors) ≡ true }
    ensures { result ≡ past_part trays.entry.presentations.now documents before after cursors }
{
    if after == before {
        return cursors;
    }
    moved(trays, cursors, documents)
}

// Sends a part as a detail.
fn send_part(p: &mut Progress, trays: Trays, part: &[u8], lines: &mut Lines)
    requires within { within trays.presentations.now trays.returns.now p.old.cursors ≡ true }
    requires moved { within trays.presentations.now trays.returns.now (moved trays.presentations.now (count_in part.now) p.old.cursors) ≡ true }
    ensures outcome { standing_of p.new lines.new.message lines.new.reply ≡ part_sent trays.entry.presentations.now part.now (standing_of p.old lines.old.message lines.old.reply) }
    ensures within { within trays.entry.presentations.now trays.entry.returns.now p.new.cursors ≡ true }
{
    let before = documents_in(p.last.presenter.presenting);
    let order = Order::Detail(Session::OPENING, operation(trays.presentations, p.cursors));
    one_more(&mut p.last, order, part, lines);
    let after = documents_in(p.last.presenter.presenting);
    let documents = part.len() / DOCUMENT_BYTES;
    p.cursors = past_part(trays, p.cursors, documents, before, after);
}

// Sends the next part, if there is one and the open lot has room for it.
fn send_next(p: &mut Progress, trays: Trays, lines: &mut Lines)
    requires { within trays.presentations.now trays.returns.now p.old.cursors ≡ true }
    ensures outcome { standing_of p.new lines.new.message lines.new.reply ≡ detail_sent trays.entry.presentations.now trays.entry.returns.now (standing_of p.old lines.old.message lines.old.reply) }
    ensures within { within trays.entry.presentations.now trays.entry.returns.now p.new.cursors ≡ true }
{
    let part = trays.next(p.cursors);
    let documents = part.len() / DOCUMENT_BYTES;
    let gathered = documents_in(p.last.presenter.presenting);
    if (documents == 0) | passes_lot(gathered, documents as u64) {
        return;
    }
    send_part(p, trays, part, lines);
}

// Sends parts until one is not counted: the lot is full, the trays are empty, or a detail was refused.
fn fill(p: &mut Progress, trays: Trays, lines: &mut Lines)
    requires { within trays.presentations.now trays.returns.now p.old.cursors ≡ true }
    ensures outcome { standing_of p.new lines.new.message lines.new.reply ≡ filled trays.entry.presentations.now trays.entry.returns.now (standing_of p.old lines.old.message lines.old.reply) }
    ensures within { within trays.entry.presentations.now trays.entry.returns.now p.new.cursors ≡ true }
{
    for parts in 0..LOT_PARTS {
        let before = p.cursors;
        send_next(p, trays, lines);
        if before == p.cursors {
            return;
        }
    }
}

// A round that moves no cursor.
fn round_between(p: &mut Progress, order: Order, lines: &mut Lines)
    ensures outcome { standing_of p.new lines.new.message lines.new.reply ≡ round_between (call_of order []) (standing_of p.old lines.old.message lines.old.reply) }
    ensures cursors { p.new.cursors ≡ p.old.cursors }
{
    one_more(&mut p.last, order, &[], lines);
}

// Header, parts and total of a lot of this order number.
fn whole_lot(p: &mut Progress, number: u16, trays: Trays, lines: &mut Lines)
    requires { within trays.presentations.now trays.returns.now p.old.cursors ≡ true }
    ensures outcome { standing_of p.new lines.new.message lines.new.reply ≡ whole_lot number trays.entry.presentations.now trays.entry.returns.now (standing_of p.old lines.old.message lines.old.reply) }
    ensures within { within trays.entry.presentations.now trays.entry.returns.now p.new.cursors ≡ true }
{
    let header = Order::Header(Session::OPENING, MOMENT, OFFICE, number);
    round_between(p, header, lines);
    fill(p, trays, lines);
    round_between(p, Order::LotTotal(Session::OPENING), lines);
}

// The lot, if documents remain.
pub fn send_lot(p: &mut Progress, number: u16, trays: Trays, lines: &mut Lines)
    requires { within trays.presentations.now trays.returns.now p.old.cursors ≡ true }
    ensures outcome { standing_of p.new lines.new.message lines.new.reply ≡ lot_made trays.entry.presentations.now trays.entry.returns.now number (standing_of p.old lines.old.message lines.old.reply) }
    ensures within { within trays.entry.presentations.now trays.entry.returns.now p.new.cursors ≡ true }
{
    if trays.next(p.cursors).is_empty() {
        return;
    }
    whole_lot(p, number, trays, lines);
}
