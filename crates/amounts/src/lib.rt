// The three counters of an exchange: documents, nominal and commission, in whole smallest units (01, 'Centres and
// directions'). Each has its own type, so that the compiler refuses one where another is due. What the words mean stands
// in specs/.
#![tactic(auto)]

ghost use Rattle.std.specs.Prelude.{◌≡◌};
ghost use Rattle.amounts.specs.Totals.{zeros, plus, same};
ghost use Rattle.amounts.specs.Inner.Fits.{SumFits};

pub mod difference;

// How many documents.
#[derive(Clone, Copy, PartialEq, Eq, Default)]
pub struct Documents(pub u64);

// What the documents are worth together.
#[derive(Clone, Copy, PartialEq, Eq, Default)]
pub struct Nominal(pub u64);

// The commission on them.
#[derive(Clone, Copy, PartialEq, Eq, Default)]
pub struct Commission(pub u64);

// The three over some documents: a detail, a lot, a direction.
#[derive(Clone, Copy, PartialEq, Eq, Default)]
pub struct Totals {
    pub documents: Documents,
    pub nominal: Nominal,
    pub commission: Commission,
}

impl Totals {
    // No documents at all.
    pub fn zeros() -> Totals
        ensures { result ≡ zeros }
    {
        Totals::default()
    }

    // The exact sum, counter by counter.
    pub fn plus(self, other: Totals) -> Totals
        requires { SumFits self other }
        ensures { result ≡ plus self other }
    {
        Totals {
            documents: Documents(self.documents.0 + other.documents.0),
            nominal: Nominal(self.nominal.0 + other.nominal.0),
            commission: Commission(self.commission.0 + other.commission.0),
        }
    }

    // Whether all three are equal.
    pub fn same(self, other: Totals) -> bool
        ensures { result ≡ same self other }
    {
        self == other
    }
}
