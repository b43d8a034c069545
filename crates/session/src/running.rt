// What a lot gathers while its details are accepted: the running totals of 01. A message states three totals of them; what is
// gathered may grow by counts that no message states. Nothing looks inside but the functions here.
ghost use Rattle.std.specs.Prelude.{◌≡◌};
ghost use Rattle.amounts.specs.Inner.Fits.{SumFits};
ghost use Rattle.session.specs.Running.{empty, adding, gather, stated, documents_in};

use amounts::Totals;

#[derive(Clone, Copy)]
pub struct Running {
    pub totals: Totals,
}

// Of no documents, as a session begins with in each direction.
pub fn empty() -> Running
    ensures { result ≡ empty }
{
    Running {
        totals: Totals::zeros(),
    }
}

// What a detail of this operation byte adds, whose documents have these totals: they are counted together whatever the
// operation.
pub fn adding(operation: u8, totals: Totals) -> Running
    ensures { result ≡ adding operation totals }
{
    Running { totals }
}

// The three totals that a message states.
pub fn stated(running: Running) -> Totals
    ensures { result ≡ stated running }
{
    running.totals
}

// With more that was gathered.
pub fn gather(running: Running, more: Running) -> Running
    requires { SumFits (stated running) (stated more) }
    ensures { result ≡ gather running more }
{
    Running {
        totals: running.totals.plus(more.totals),
    }
}

// How many documents there are.
pub fn documents_in(running: Running) -> u64
    ensures { result ≡ documents_in running }
{
    running.totals.documents.0
}
