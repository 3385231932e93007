// What a written and a held row of one series are charged together.
ghost use Rattle.std.specs.Prelude.{◌≡◌};
ghost use Rattle.rules.specs.Spreads.{spread_between};
ghost use Rattle.spreads.specs.Charges.{charge_of};

use crate::spread::spread_between;
use rules::{Series, Terms};

// The spread's unit, or the written unit margin where there is none.
fn charge_of(unit: u64, spread: Option<u64>) -> u64
    ensures { result ≡ charge_of unit spread }
{
    spread.unwrap_or(unit)
}

// The charge of a held and a written row of series s, h and w after flag 1: below the written unit margin exactly where
// they may pair.
pub fn charge_between(s: Series, w: Terms, h: Terms, unit: u64) -> u64
    ensures { result ≡ charge_of unit (spread_between s h w) }
{
    charge_of(unit, spread_between(s, h, w))
}
