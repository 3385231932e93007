// fa and fb from a code of the circular and a number of days: document 02, request 2.
#![tactic(auto)]

ghost use Rattle.std.specs.Prelude.{◌≤◌};
ghost use Rattle.factors.specs.Factors.{CodeIs, FactorsAre, code_number};
ghost use Rattle.roots.specs.Roots.{most_days};

use crate::codes::code_numbers;
use crate::formulas::{Factors, high_factor, low_factor};
use crate::growth::{ROUND_DOWN, ROUND_UP, growth};
use roots::{MOST_DAYS, root};
use rules::{Refusal, Refused};

pub mod codes;
pub mod formulas;
pub mod growth;

// The codes of the circular's table, in its order.
#[derive(Clone, Copy, Debug, PartialEq, Eq)]
pub enum Code {
    FCI,
    FPI,
    OFC,
    OFV,
}

// A code from the number by which a call names it.
impl TryFrom<u64> for Code {
    type Error = Refusal;

    ghost try_from_gives = { CodeIs };

    fn try_from(number: u64) -> Result<Code, Refusal> {
        match number {
            0 => Ok(Code::FCI),
            1 => Ok(Code::FPI),
            2 => Ok(Code::OFC),
            3 => Ok(Code::OFV),
            _ => Err(Refusal::FactorsAskedFor),
        }
    }
}

// The factors of a code.
fn factors_of(code: Code, days: u64) -> Factors
    requires { days ≤ most_days }
    ensures { FactorsAre (code_number code) days (Ok result) }
{
    let numbers = code_numbers(code);
    let high = growth(ROUND_UP, numbers.high, days);
    let low = growth(ROUND_DOWN, numbers.low, days);
    let s = root(days as usize) as u64;
    let fa = high_factor(high, s, numbers.f2, numbers.f4);
    let fb = low_factor(low, s, numbers.f2, numbers.f4);
    Factors { fa, fb }
}

// The factors of a code, given as its number, and of a number of days. Any two numbers may be handed over.
pub fn factors(code: u64, days: u64) -> Result<Factors, Refused>
    ensures { FactorsAre code days result }
{
    let code = Code::try_from(code)?;
    if MOST_DAYS < days {
        return Err(Refusal::FactorsAskedFor.into());
    }
    Ok(factors_of(code, days))
}
