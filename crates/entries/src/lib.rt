// What C calls beside the detail check: a script is played, an evening is run over the trays of two ends, and in files of
// their own what was asked for since. include/line.h says how each is called.
#![tactic(auto)]

pub mod commissions;
pub mod days;
pub mod keyed;
pub mod lots;

ghost use Rattle.std.specs.Prelude.{◌≡◌, ◌≤◌, length, drop};
ghost use Rattle.exchange.specs.Evening.{exchanged};

use exchange::evening::exchange;
use exchange::shown::Evening;
use outgoing::Trays;
use script::play::{Stop, play};
use script::player::fresh;

// How many bytes of the script were played, how many bytes answer them, and why it stopped: 0 where all was played, 1 where
// the answer to the next line does not fit.
#[repr(C)]
#[derive(Clone, Copy)]
pub struct ScriptPlayed {
    pub read: u64,
    pub written: u64,
    pub stop: u8,
}

// Two stops have one number, so that `as` does not give it.
fn stop_number(stop: Stop) -> u8 {
    match stop {
        Stop::Done | Stop::Unfinished => 0,
        Stop::Full => 1,
    }
}

// Plays a script on two ends that have no session yet.
#[unsafe(no_mangle)]
pub extern "C" fn line_play_script(
    script: &[u8],
    output: &mut [u8],
    wire: &mut [u8],
) -> ScriptPlayed
    ensures read { result.read ≤ length script.now }
    ensures written { result.written ≤ length output.old }
    ensures kept { drop result.written output.new ≡ drop result.written output.old }
{
    let played = play(fresh(), script, true, output, wire);
    ScriptPlayed {
        read: played.read as u64,
        written: played.written as u64,
        stop: stop_number(played.stop),
    }
}

// Runs an evening of 0081 and 0072 over their trays.
#[unsafe(no_mangle)]
pub extern "C" fn line_exchange<'a>(
    near_presentations: &'a [u8],
    near_returns: &'a [u8],
    far_presentations: &'a [u8],
    far_returns: &'a [u8],
) -> Evening
    ensures { result ≡ exchanged near_presentations.now near_returns.now far_presentations.now far_returns.now }
{
    let near = Trays {
        presentations: near_presentations,
        returns: near_returns,
    };
    let far = Trays {
        presentations: far_presentations,
        returns: far_returns,
    };
    exchange(near, far)
}
