// A row of a tariff: a key, and what commission its documents bear.
ghost use Rattle.std.specs.Prelude.{◌≡◌};
ghost use Rattle.tariff.specs.Tariff.{row_in, row_good};

// The numbers of a row.
pub const ROW_NUMBERS: usize = 4;

const LARGEST_KEY: u32 = 9_999;

const LARGEST_RATE: u32 = 10_000;

pub const LARGEST_COMMISSION: u32 = 99_999_999;

// The rate is per ten thousand; least and greatest bound the commission.
#[derive(Clone, Copy, PartialEq, Eq, Debug)]
pub struct Row {
    pub key: u32,
    pub rate: u32,
    pub least: u32,
    pub greatest: u32,
}

// The row that four numbers make up.
impl From<[u32; ROW_NUMBERS]> for Row {
    ghost from_gives = { λ numbers row. row ≡ row_in numbers };

    fn from(numbers: [u32; ROW_NUMBERS]) -> Self {
        let [key, rate, least, greatest] = numbers;
        Row {
            key,
            rate,
            least,
            greatest,
        }
    }
}

impl Row {
    pub fn is_good(self) -> bool
        ensures { result ≡ row_good self }
    {
        (1..=LARGEST_KEY).contains(&self.key)
            && self.rate <= LARGEST_RATE
            && self.least <= self.greatest
            && self.greatest <= LARGEST_COMMISSION
    }
}
