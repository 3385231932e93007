// Growth over a number of days, in units of 10^-8.
ghost use Rattle.std.specs.Prelude.{◌≡◌};
ghost use Rattle.factors.specs.Factors.{multiplied};
ghost use Rattle.factors.specs.Numbers.{GrowthAsked};

// 1 in units of 10^-8.
const ONE: u64 = 100_000_000;

// What is added before a division by 10^8, so that it rounds down, or up: `down` and `up` in contracts.
pub const ROUND_DOWN: u64 = 0;

pub const ROUND_UP: u64 = 99_999_999;

// n multiplications by d from 10^8, each rounded.
pub fn growth(rounding: u64, d: u64, n: u64) -> u64
    requires { GrowthAsked rounding d n }
    ensures { result ≡ multiplied rounding d n }
{
    let mut x = ONE;
    for _ in 0..n {
        x = (x * d + rounding) / ONE;
    }
    x
}
