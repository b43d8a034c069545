// What a receiver answers to a message; some of the codes also stop a send. A new code is a variant with its number, its row
// here, one more in the length of the table, its number and its row in specs/Code.antt, a clause of `found_again`, a byte of
// `known_bytes`, and a case of `session` in which a reply carries it; the check refuses while one of them is missing.
ghost use Rattle.std.specs.Prelude.{◌≡◌};
ghost use Rattle.codes.specs.Code.{code_number, code_byte, read_code};

use packed::writing::packed_byte;

#[derive(Clone, Copy, PartialEq, Eq)]
pub enum Code {
    Accepted = 0,
    WrongField = 1,
    WrongAmount = 3,
    Duplicate = 4,
    WrongDrawee = 6,
    WrongSequence = 7,
    WrongTotals = 8,
    MixedOperations = 9,
    TooLate = 10,
    TooManyLots = 11,
    TooManyDocuments = 12,
    ForNothing = 44,
}

// The paper's number.
pub fn code_number(c: Code) -> u8
    ensures { result ≡ code_number c }
{
    c as u8
}

// The packed byte of a reply.
#[tactic(auto, unfolding(crate::specs::Code::code_byte))]
pub fn code_byte(c: Code) -> u8
    ensures { result ≡ code_byte c }
{
    packed_byte(code_number(c) as u64)
}

// Every code, in the order of the numbers. The commonest is found first.
const CODES: [Code; 12] = [
    Code::Accepted,
    Code::WrongField,
    Code::WrongAmount,
    Code::Duplicate,
    Code::WrongDrawee,
    Code::WrongSequence,
    Code::WrongTotals,
    Code::MixedOperations,
    Code::TooLate,
    Code::TooManyLots,
    Code::TooManyDocuments,
    Code::ForNothing,
];

// What a byte says where a reply has its code.
pub fn read_code(byte: u8) -> Option<Code>
    ensures { result ≡ read_code byte }
{
    for c in CODES {
        if code_byte(c) == byte {
            return Some(c);
        }
    }
    None
}
