// Plays the evenings of data/ in a teaching order, and prints the name of each and what it gives. The first lines of a script
// say what happens in it; docs/SCRIPTS.md explains the language.
#![tactic(auto)]

use std::fs::Files;
use std::{fs, io};
use stream::play_from;

fn evening(rt: &(impl Print + Files), name: &str) -> io::Result<()> {
    println!(rt; "== {name}")?;
    let Ok(mut script) = fs::open(rt, name) else {
        return println!(rt; "it cannot be read");
    };
    play_from(rt, &mut script)
}

// An ordinary evening; what the line can lose; what the close leaves behind, and clocks that differ; details and lots that are
// refused, and the limits.
const EVENINGS: [&str; 19] = [
    "ordinary.script",
    "lost_message.script",
    "lost_reply_header.script",
    "lost_reply_detail.script",
    "lost_reply_lot.script",
    "lost_reply_session.script",
    "both_losing.script",
    "hour_later.script",
    "lost_reply_close.script",
    "closes_differ.script",
    "clocks_margin.script",
    "clocks_preclose.script",
    "clocks_close.script",
    "clock_set_back.script",
    "duplicate.script",
    "zeros.script",
    "for_nothing.script",
    "many_lots.script",
    "full_lot.script",
];

fn main(rt: HostRuntime) -> io::Result<()> {
    for name in EVENINGS {
        evening(&rt, name)?;
    }
    Ok(())
}
