// The limits of a direction: how many documents a lot may have, and how many accepted lots there may be.
ghost use Rattle.std.specs.Prelude.{◌≡◌, ◌+◌};
ghost use Rattle.session.specs.Limits.{passes_lot, lots_used};

// The most documents of a lot.
pub const MOST_LOT_DOCUMENTS: u64 = 2600;

// The most accepted lots of a direction.
pub const MOST_LOTS: usize = 64;

// Whether a lot that has gathered so many documents would be too long with so many more. It may be asked of any two numbers.
pub fn passes_lot(gathered: u64, more: u64) -> bool
    ensures { result ≡ passes_lot (gathered + more) }
{
    MOST_LOT_DOCUMENTS < gathered.saturating_add(more)
}

// Whether a direction with so many accepted lots may have no more.
pub fn lots_used(lots: usize) -> bool
    ensures { result ≡ lots_used lots }
{
    MOST_LOTS <= lots
}
