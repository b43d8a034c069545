// Packed decimals: two decimal digits a byte, the high half first (01, 'Layouts').
// Stated here: whether a run of bytes is all digits, the value of a run, and how a value is written. Every function
// takes a slice and a place in it, counted from 0. What the words mean stands in specs/.
#![tactic(auto)]

pub mod digits;
pub mod number;
pub mod pieces;
pub mod writing;
