// The text of scripts, as far as it knows nothing of sessions (docs/SCRIPTS.md): the words of a line, decimal numbers, bytes
// as hexadecimal digits, the memory of bytes that were written, by their numbers, and a line of these, read. Every function is
// equated with a definition of specs/; specs/Line.antt reads like the document. `recalled` is what is found in the lent bytes,
// whatever they hold; where they hold a list of what was written (`Holds`, which `remember` keeps), it is what that list has
// under the number (`recalls`).
#![tactic(auto)]

mod digit;
pub mod hex;
pub mod kind;
pub mod line;
pub mod number;
pub mod wire;
pub mod word;
