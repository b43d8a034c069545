// Scripts of evenings (docs/SCRIPTS.md): a text that names calls at two ends, a line each, is read and played on two
// centres, and each call is answered by a line. Everything is over lent slices. The contracts say what each line means, what
// it does to the two sessions and their running totals, and which bytes of the output keep their values; the text of an answer
// they leave open.
#![tactic(auto)]

mod answer;
mod asked;
pub mod play;
pub mod player;
mod reading;
mod wording;
