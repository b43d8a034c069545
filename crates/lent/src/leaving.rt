// The step by which running totals that are lent change.
ghost use Rattle.std.specs.Prelude.{◌≡◌};

use session::running::Running;

// What a call by value leaves takes the place of what is lent. proofs/Added.antt says what that is after a detail.
pub fn leave(running: &mut Running, left: Running)
    ensures { running.new ≡ left }
{
    *running = left;
}
