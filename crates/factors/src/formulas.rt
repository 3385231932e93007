// fa and fb by their formulas, from a growth in 10^-8, S in 10^-6, and F2 and F4 in 10^-4. Products and sums are in 10^-18.
ghost use Rattle.std.specs.Prelude.{◌≡◌};
ghost use Rattle.factors.specs.Factors.{high_factor, low_factor};
ghost use Rattle.factors.specs.Numbers.{FormulaAsked};

// fa and fb in millionths.
#[derive(Clone, Copy)]
pub struct Factors {
    pub fa: u64,
    pub fb: u64,
}

// 1 in units of 10^-10, those of F2 × S.
const ONE_BESIDE_ROOT: u64 = 10_000_000_000;

// A millionth, and 10^-4, in units of 10^-18.
const MILLIONTH: u64 = 1_000_000_000_000;

const TEN_THOUSANDTH: u64 = 100_000_000_000_000;

pub fn high_factor(growth: u64, s: u64, f2: u64, f4: u64) -> u64
    requires { FormulaAsked growth s f2 f4 }
    ensures { result ≡ high_factor f2 f4 growth s }
{
    (growth * (ONE_BESIDE_ROOT + f2 * s) + f4 * TEN_THOUSANDTH + (MILLIONTH - 1)) / MILLIONTH
}

// The difference is never below 0: growth is at least 1, F2 × S at most 0.54 and F4 at most 0.15.
pub fn low_factor(growth: u64, s: u64, f2: u64, f4: u64) -> u64
    requires { FormulaAsked growth s f2 f4 }
    ensures { result ≡ low_factor f2 f4 growth s }
{
    (growth * (ONE_BESIDE_ROOT - f2 * s) - f4 * TEN_THOUSANDTH) / MILLIONTH
}
