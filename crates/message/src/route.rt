// The date and the two entities of a direction. Envelope and header carry them side by side, and a session compares them
// with its own.
ghost use Rattle.std.specs.Prelude.{◌≡◌, ◌+◌, ◌≤◌, length};
ghost use Rattle.std.proofs.lemmas.List.Edits.{sets};
ghost use Rattle.message.specs.Inner.Route.{route_bytes, written_route, route_at};
ghost use Rattle.message.specs.Route.{same_route};

use packed::number::{number, number2};
use packed::writing::put;

// The date is the number DDMMYY.
#[derive(Clone, Copy, PartialEq, Eq)]
pub struct Route {
    pub date: u32,
    pub presenting: u16,
    pub receiving: u16,
}

// Whether two routes are the same.
pub fn same_route(r: Route, s: Route) -> bool
    ensures { result ≡ same_route r s }
{
    r == s
}

// The seven bytes from `at` on, whatever their digits.
pub fn read_route(s: &[u8], at: usize) -> Route
    requires { at + route_bytes ≤ length s.now }
    ensures { result ≡ route_at at s.now }
{
    Route {
        date: number(s, at, 3) as u32,
        presenting: number2(s, at + 3),
        receiving: number2(s, at + 5),
    }
}

// Writes the seven bytes from `at` on; every other byte keeps its value.
pub fn write_route(out: &mut [u8], at: usize, r: Route)
    requires { at + route_bytes ≤ length out.old }
    ensures { out.new ≡ sets out.old at (written_route r) }
{
    put(out, at, 3, r.date as u64);
    put(out, at + 3, 2, r.presenting as u64);
    put(out, at + 5, 2, r.receiving as u64);
}
