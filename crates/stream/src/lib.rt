// A script that comes through a reader, of any length: it is read in pieces, played, and answered on standard output as
// it goes. Nothing is known of what is read or written; what playing does is the promise of the crate script. A read or a write
// that fails ends it.
#![tactic(auto)]

ghost use Rattle.std.specs.Prelude.{◌≡◌, ◌≤◌, length, take, OnErr};

use script::play::{Stop, play};
use script::player::{Player, fresh};
use std::io;
use std::io::Read;
use text::wire::WIRE_BYTES;

// How much of a script waits at most, and how much is answered at once.
const ROOM: usize = 65_536;

// Between two pieces: the player, the bytes that its memory keeps, the input, how many bytes wait in it, room for answers, whether
// no more will come, and whether all is done.
#[derive(Clone, Copy)]
pub struct Stream {
    pub player: Player,
    pub wire: [u8; WIRE_BYTES],
    pub input: [u8; ROOM],
    pub filled: usize,
    pub output: [u8; ROOM],
    pub last: bool,
    pub over: bool,
    ghost in_bounds: { filled ≤ length input },
}

impl Stream {
    // Reads once behind what waits, as long as there is room; nothing comes at the end of the script.
    fn listen(&mut self, script: &mut impl Read) -> io::Result<()>
        ensures waiting { take self.old.filled self.new.input ≡ take self.old.filled self.old.input }
    {
        if self.filled < ROOM {
            let came = script.read(&mut self.input[self.filled..])?;
            self.filled += came;
            self.last |= came == 0;
        }
        Ok(())
    }

    // Plays what waits, answers it, and keeps the rest.
    fn answer(&mut self, rt: &impl Print) -> io::Result<()>
        ensures err { OnErr result (self.new.input ≡ self.old.input) }
    {
        let waiting = &self.input[..self.filled];
        let played = play(
            self.player,
            waiting,
            self.last,
            &mut self.output,
            &mut self.wire,
        );
        rt.write_all(&self.output[..played.written])?;
        self.input.copy_within(played.read..self.filled, 0);
        self.filled -= played.read;
        self.player = played.player;
        self.over = self.last & !matches!(played.stop, Stop::Full);
        Ok(())
    }

    // One piece: what comes is heard and answered.
    fn turn(&mut self, rt: &impl Print, script: &mut impl Read) -> io::Result<()>
        ensures err { OnErr result (take self.old.filled self.new.input ≡ take self.old.filled self.old.input) }
    {
        self.listen(script)?;
        self.answer(rt)
    }

    // A loop has to end, and nothing says that a script does: there are so many turns that no run uses them up.
    fn run(&mut self, rt: &impl Print, script: &mut impl Read) -> io::Result<()> {
        for _ in 0..u64::MAX {
            self.turn(rt, script)?;
            if self.over {
                return Ok(());
            }
        }
        Ok(())
    }
}

// Plays a whole script.
pub fn play_from(rt: &impl Print, script: &mut impl Read) -> io::Result<()> {
    let mut stream = Stream {
        player: fresh(),
        wire: [0; WIRE_BYTES],
        input: [0; ROOM],
        filled: 0,
        output: [0; ROOM],
        last: false,
        over: false,
    };
    stream.run(rt, script)
}
