// Plays a script of two ends from standard input, and writes the answers as it goes (docs/SCRIPTS.md).
#![tactic(auto)]

use std::io;
use stream::play_from;

fn main(rt: HostRuntime) -> io::Result<()> {
    let mut script = rt.stdin();
    play_from(&rt, &mut script)
}
