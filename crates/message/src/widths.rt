// The widths of a total's fields: all that tells a lot total from a session total.
ghost use Rattle.std.specs.Prelude.{◌≤◌};

use crate::content::{LOT_TOTAL, SESSION_TOTAL};

// The operation, and the bytes of documents, nominal and commission, each field a number of 64 bits.
#[derive(Clone, Copy)]
pub struct Widths {
    pub operation: u8,
    pub documents: usize,
    pub nominal: usize,
    pub commission: usize,
    ghost documents_bound: { documents ≤ 9 },
    ghost nominal_bound: { nominal ≤ 9 },
    ghost commission_bound: { commission ≤ 9 },
}

pub const LOT: Widths = Widths {
    operation: LOT_TOTAL,
    documents: 3,
    nominal: 8,
    commission: 6,
};

pub const SESSION: Widths = Widths {
    operation: SESSION_TOTAL,
    documents: 4,
    nominal: 9,
    commission: 7,
};
