// What became of a tray.
ghost use Rattle.std.specs.Prelude.{◌≡◌};
ghost use Rattle.tariff.specs.Tray.{fill_shown};

// What a document earns, with the paper's numbers.
#[derive(Clone, Copy, PartialEq, Eq, Debug)]
pub enum Earned {
    WrongKey = 1,
    WrongAmount = 3,
    UnknownKey = 41,
}

// Why no document was filled: a tariff or a tray that is not good, or the first document that earns something, by its
// place from 0.
#[derive(Clone, Copy, PartialEq, Eq, Debug)]
pub enum FillRefusal {
    WrongTariff,
    WrongTray,
    Document(u64, Earned),
}

// The answer as C has it, which has no Result: the paper's number, and how many documents were filled or the place of one,
// 0 beside 42 and 25.
#[repr(C)]
#[derive(Clone, Copy)]
pub struct FillShown {
    pub code: u8,
    pub documents: u64,
}

pub fn fill_shown(answer: Result<u64, FillRefusal>) -> FillShown
    ensures { result ≡ fill_shown answer }
{
    let (code, documents) = match answer {
        Ok(documents) => (0, documents),
        Err(FillRefusal::WrongTariff) => (42, 0),
        Err(FillRefusal::WrongTray) => (25, 0),
        Err(FillRefusal::Document(place, earned)) => (earned as u8, place),
    };
    FillShown { code, documents }
}
