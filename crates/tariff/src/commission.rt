// The commission of one document: its tariff key, its nominal and the commission that was typed.
ghost use Rattle.std.specs.Prelude.{◌≡◌};
ghost use Rattle.tariff.specs.Commission.{within_limits, commission_shown, commissioned};

use crate::due::due;
use crate::good::read_tariff;
use crate::row::LARGEST_COMMISSION;

// Why no commission is given, with the paper's numbers.
#[derive(Clone, Copy, PartialEq, Eq, Debug)]
pub enum CommissionRefusal {
    OverLimits = 1,
    UnknownKey = 41,
    WrongTariff = 42,
}

// The answer as C has it, which has no Result: the number, and the commission, 0 beside a code.
#[repr(C)]
#[derive(Clone, Copy)]
pub struct CommissionShown {
    pub code: u8,
    pub commission: u64,
}

pub fn commission_shown(answer: Result<u64, CommissionRefusal>) -> CommissionShown
    ensures { result ≡ commission_shown answer }
{
    match answer {
        Ok(commission) => CommissionShown {
            code: 0,
            commission,
        },
        Err(refusal) => CommissionShown {
            code: refusal as u8,
            commission: 0,
        },
    }
}

const LARGEST_NOMINAL: u64 = 999_999_999_999;

const LARGEST_TYPED: u64 = LARGEST_COMMISSION as u64;

fn within_limits(nominal: u64, typed: u64) -> bool
    ensures { result ≡ within_limits nominal typed }
{
    nominal <= LARGEST_NOMINAL && typed <= LARGEST_TYPED
}

// The commission of a document with this key and nominal; `typed` is kept where the key is 0.
pub fn commission(
    tariff: &[u32],
    key: u32,
    nominal: u64,
    typed: u64,
) -> Result<u64, CommissionRefusal>
    ensures { commission_shown result ≡ commissioned tariff.now key nominal typed }
{
    let tariff = read_tariff(tariff).ok_or(CommissionRefusal::WrongTariff)?;
    if !within_limits(nominal, typed) {
        return Err(CommissionRefusal::OverLimits);
    }
    let rule = tariff.rule_of(key).ok_or(CommissionRefusal::UnknownKey)?;
    Ok(due(Some(rule), nominal, typed))
}
