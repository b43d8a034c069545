// The lot file of accepted documents, for drawee banks to collect: a lent slice with a table of contents and the bodies of
// lots behind it. It is checked, a lot is found, added and taken out; no session asks it. What the words mean stands in
// specs/, and docs/LOT-FILE.md draws the layout.
#![tactic(auto)]

pub mod add;
pub mod answers;
mod asked;
pub mod check;
mod contents;
pub mod find;
mod moving;
mod row;
mod search;
pub mod take_out;
