// What an evening shows: the two reports in plain numbers, as C takes them. include/line.h says what each is.
ghost use Rattle.std.specs.Prelude.{◌≡◌};
ghost use Rattle.exchange.specs.Evening.{sums_of, close_number, awaited_number, no_lot, awaited_lot, side_of, no_side};

use session::counters::Lot;
use session::report::{Awaited, Report};
use session::running::{Running, empty, stated};
use session::session::Close;

#[repr(C)]
#[derive(Clone, Copy, Default)]
pub struct Sums {
    pub lots: u64,
    pub documents: u64,
    pub nominal: u64,
    pub commission: u64,
}

#[repr(C)]
#[derive(Clone, Copy, Default)]
pub struct Side {
    pub presented: Sums,
    pub received: Sums,
    pub close: u8,
    pub awaited: u8,
    pub lot_number: u64,
    pub lot: Sums,
    pub nominal_position: i64,
    pub commission_position: i64,
}

#[repr(C)]
#[derive(Clone, Copy)]
pub struct Evening {
    pub code: u8,
    pub near_side: Side,
    pub far_side: Side,
}

fn sums_of(lots: u64, gathered: Running) -> Sums
    ensures { result ≡ sums_of lots gathered }
{
    let totals = stated(gathered);
    Sums {
        lots,
        documents: totals.documents.0,
        nominal: totals.nominal.0,
        commission: totals.commission.0,
    }
}

fn close_number(close: Close) -> u8
    ensures { result ≡ close_number close }
{
    close as u8
}

// A match, since `as` takes no variant that carries a lot.
fn awaited_number(awaited: Awaited) -> u8
    ensures { result ≡ awaited_number awaited }
{
    match awaited {
        Awaited::Neither => 0,
        Awaited::LotTotal(_) => 1,
        Awaited::SessionTotal => 2,
    }
}

// A lot of nothing, where none is named.
fn no_lot() -> Lot
    ensures { result ≡ no_lot }
{
    Lot {
        number: 0,
        gathered: empty(),
    }
}

// The lot whose total is awaited.
fn awaited_lot(awaited: Awaited) -> Lot
    ensures { result ≡ awaited_lot awaited }
{
    match awaited {
        Awaited::LotTotal(lot) => lot,
        Awaited::Neither | Awaited::SessionTotal => no_lot(),
    }
}

pub fn side_of(r: Report) -> Side
    ensures { result ≡ side_of r }
{
    let lot = awaited_lot(r.awaited);
    Side {
        presented: sums_of(r.presented.lots as u64, r.presented.gathered),
        received: sums_of(r.received.lots as u64, r.received.gathered),
        close: close_number(r.close),
        awaited: awaited_number(r.awaited),
        lot_number: lot.number as u64,
        lot: sums_of(0, lot.gathered),
        nominal_position: r.positions.nominal,
        commission_position: r.positions.commission,
    }
}

// Of an end that was not started.
pub fn no_side() -> Side
    ensures { result ≡ no_side }
{
    Side::default()
}
