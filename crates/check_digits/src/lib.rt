// Check digits of documents that are keyed by hand: the digit printed beside a document's number, an entity with its branch,
// or an account is worked out again and compared. No session asks for one. What the words mean stands in specs/.
#![tactic(auto)]

pub mod check;
mod weighted;
