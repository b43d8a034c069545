// A detail (01, 'Detail'): the groups of a body, its codes and totals; and the writing of a body from documents. What the
// words mean stands in specs/.
#![tactic(auto)]

pub mod checked;
mod documents;
pub mod groups;
pub mod reading;
mod verdict;
pub mod writing;
