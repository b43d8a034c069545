// One document of 51 bytes (01, 'Detail'): whether its fields and its amounts are good, whether its drawee is served, and
// what it is worth. A document is handed over as an array of its bytes; fields are read at their places in it,
// counted from 0. What the words mean stands in specs/, where the table of fields is.
#![tactic(auto)]

mod digits;
mod drawee;
pub mod entities;
pub mod found;
pub mod rules;

// The operation byte of a group of presented documents, and of a group of returns; and the plain numbers of the two. They stay
// bytes: what comes on the line may be any byte, and an enum would ask more of callers.
pub const PRESENTED: u8 = 0x30;

pub const RETURNED: u8 = 0x40;

pub const PRESENTED_NUMBER: u8 = 30;

pub const RETURNED_NUMBER: u8 = 40;

// The bytes of a document, and the most documents of a detail.
pub const DOCUMENT_BYTES: usize = 51;

pub const MOST_DETAIL_DOCUMENTS: usize = 200;

// Where the fields stand that more than one test reads, how wide the amounts are, and where the four key bytes begin, which
// no test reads.
pub const NOMINAL: usize = 25;

pub const NOMINAL_BYTES: usize = 6;

pub const DRAWEE: usize = 31;

pub const COMMISSION: usize = 43;

pub const COMMISSION_BYTES: usize = 4;

pub const UNREAD_KEY: usize = 47;
