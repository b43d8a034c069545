// What the calls of a lot file answer, and the paper's number of each refusal.
ghost use Rattle.std.specs.Prelude.{◌≡◌};
ghost use Rattle.lot_file.specs.Answers.{refusal_number, answer_number, find_shown};

// Why a call is refused; each variant is the paper's number.
#[derive(Clone, Copy)]
pub enum LotRefusal {
    Repeated = 4,
    Wrong = 25,
    NoRoom = 45,
    Absent = 46,
}

// What checking, adding and taking out answer.
pub type Answer = Result<(), LotRefusal>;

// Where the body of a lot starts, and how many documents it has.
#[derive(Clone, Copy)]
pub struct Found {
    pub start: u64,
    pub documents: u64,
}

// The same as C has it: the paper's number, and zeros beside a refusal.
#[repr(C)]
#[derive(Clone, Copy)]
pub struct FindShown {
    pub code: u8,
    pub start: u64,
    pub documents: u64,
}

fn refusal_number(r: LotRefusal) -> u8
    ensures { result ≡ refusal_number r }
{
    r as u8
}

// The paper's number, 0 where nothing is refused; `codes` has the same over the refusals of a session.
pub fn answer_number(a: Answer) -> u8
    ensures { result ≡ answer_number a }
{
    match a {
        Ok(()) => 0,
        Err(r) => refusal_number(r),
    }
}

pub fn find_shown(found: Result<Found, LotRefusal>) -> FindShown
    ensures { result ≡ find_shown found }
{
    match found {
        Ok(Found { start, documents }) => FindShown {
            code: 0,
            start,
            documents,
        },
        Err(r) => FindShown {
            code: refusal_number(r),
            start: 0,
            documents: 0,
        },
    }
}
