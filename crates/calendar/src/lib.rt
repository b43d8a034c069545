// The calendar of a year: from a list of unworked days to the table of next working days; the table of 2028; and the
// compensation date of a date of that year. What the words mean stands in specs/.
#![tactic(auto)]

pub mod compensation;
mod dates;
pub mod generator;
pub mod shown;
pub mod year;
