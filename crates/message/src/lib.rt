// The messages but the detail, and the reply (01, 'Layouts'): the envelope before every body, the header, the lot total,
// the session total, the reply's body. Reading is total on any bytes; writing puts whole messages and replies into the
// lent line buffer. What the words mean stands in specs/, where the tables of fields are.
#![tactic(auto)]

pub mod content;
pub mod envelope;
pub mod header;
mod layout;
pub mod line;
pub mod reply;
pub mod route;
pub mod total;
mod widths;
