// What is fixed of an evening that this driver runs.
use document::MOST_DETAIL_DOCUMENTS;
use session::limits::MOST_LOT_DOCUMENTS;

// 14 March 2028, as DDMMYY.
pub const DATE: u32 = 14_03_28;

// The two entities; neither represents another.
pub const NEAR: u16 = 81;

pub const FAR: u16 = 72;

// What every header says of its moment, 21:00:00.00, and of the centre that sends it.
pub const MOMENT: u32 = 21_00_00_00;

pub const OFFICE: u16 = 1;

// The most parts of a lot: as many as fill it, and one more, since the last part of the presentations can be shorter.
pub const LOT_PARTS: usize = MOST_LOT_DOCUMENTS as usize / MOST_DETAIL_DOCUMENTS + 1;
