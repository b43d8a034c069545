// A centre, as it stands between two calls.
ghost use Rattle.centre.specs.Premise.{IsReady};
ghost use Rattle.centre.specs.Inner.Premise.{ready_props};

use session::running::{Running, empty};
use session::session::Session;

// A session, and the running totals of the lots that are open in it, presented and received: ready for every call.
#[derive(Clone, Copy)]
pub struct Centre {
    pub session: Session,
    pub presenting: Running,
    pub receiving: Running,
    pub ghost ready: { IsReady session presenting receiving } by { Prim.hlevel ready_props },
}

impl Centre {
    ghost use Rattle.std.specs.Prelude.{◌≡◌, []};
    ghost use Rattle.session.specs.Start.{start};
    ghost use Rattle.session.specs.Engine.{with_empty, Ready};
    ghost use Rattle.session.specs.Parties.{Direction};
    ghost use Rattle.session.specs.Premise.{Kept, KeptBeside};
    ghost use Rattle.centre.specs.Turn.{engine_of};

    // A centre whose session has just been started.
    pub fn begun(session: Session) -> Self
        requires { Ready (with_empty session) }
        ensures { engine_of result ≡ with_empty session }
    {
        Centre {
            session,
            presenting: empty(),
            receiving: empty(),
        }
    }

    // A centre that starts its session, with nobody represented. Where the start is refused, the session is a closed one.
    pub fn started(date: u32, own: u16, partner: u16) -> Self
        ensures { engine_of result ≡ with_empty (start date own partner []).session }
    {
        Centre::begun(Session::start(date, own, partner, &[]).session)
    }

    // The centre after a call that is lent no running totals.
    pub fn with_session(self, session: Session) -> Self
        requires { Kept self.session session }
        ensures { engine_of result ≡ record { session = session; presenting = self.presenting; receiving = self.receiving } }
    {
        Centre {
            session,
            presenting: self.presenting,
            receiving: self.receiving,
        }
    }

    // The centre after a call that is lent those of the presented lot. The direction stands in the clauses of this method and of
    // the next; one method for both would need it as an argument, and a branch.
    pub fn with_presented(self, session: Session, running: Running) -> Self
        requires { KeptBeside Direction.presenting self.session session running }
        ensures { engine_of result ≡ record { session = session; presenting = running; receiving = self.receiving } }
    {
        Centre {
            session,
            presenting: running,
            receiving: self.receiving,
        }
    }

    // The centre after a call that is lent those of the received lot.
    pub fn with_received(self, session: Session, running: Running) -> Self
        requires { KeptBeside Direction.receiving self.session session running }
        ensures { engine_of result ≡ record { session = session; presenting = self.presenting; receiving = running } }
    {
        Centre {
            session,
            presenting: self.presenting,
            receiving: running,
        }
    }
}
