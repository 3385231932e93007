// H, L and MM of a series, the normalised position, and REB, PB and the payoffs of one.
ghost use Rattle.std.specs.Prelude.{◌≡◌};
ghost use Rattle.rules.proofs.Mirror.{charge, worst};
ghost use Rattle.rules.specs.OnePosition.{call_payoff, limit_or, normal, put_payoff, rebate};
ghost use Rattle.rules.specs.Quantities.{high, low, minimum};

use numbers::{fine_units, larger, less, product, smaller};
use rules::{Barrier, Limiter, OptionType, Position, Series, Terms};

pub fn high_price(s: Series) -> u64
    ensures { result ≡ high s }
{
    product(s.pv, s.fa)
}

pub fn low_price(s: Series) -> u64
    ensures { result ≡ low s }
{
    product(s.pv, s.fb)
}

pub fn minimum_margin(s: Series) -> u64
    ensures { result ≡ minimum s }
{
    product(s.f3, s.pv)
}

// The terms in force: flag 1 makes the position one without barrier and with REB 0.
pub fn normalised(p: Position) -> Terms
    ensures { result ≡ normal p }
{
    if p.flags.knockedIn {
        return Terms {
            barrier: Barrier::NoBarrier,
            reb: 0,
            ..p.terms
        };
    }
    p.terms
}

pub fn rebate_of(t: Terms) -> u64
    ensures { result ≡ rebate t }
{
    fine_units(t.reb)
}

// PB, or x where there is no limiter.
pub fn limit_or(limiter: Limiter, x: u64) -> u64
    ensures { result ≡ limit_or limiter x }
{
    match limiter {
        Limiter::NoLimiter => x,
        Limiter::At(pb) => fine_units(pb),
    }
}

// C at the high price in force.
fn call_payoff(s: Series, t: Terms, high: u64) -> u64
    ensures { result ≡ call_payoff s t high }
{
    less(
        smaller(limit_or(t.limiter, high_price(s)), high),
        fine_units(t.pe),
    )
}

// P at the low price in force.
fn put_payoff(s: Series, t: Terms, low: u64) -> u64
    ensures { result ≡ put_payoff s t low }
{
    less(
        fine_units(t.pe),
        larger(limit_or(t.limiter, low_price(s)), low),
    )
}

// Of the prices from low to high the one that costs the writer most.
pub fn worst_price(option: OptionType, low: u64, high: u64) -> u64
    ensures { result ≡ worst option low high }
{
    match option {
        OptionType::Call => high,
        OptionType::Put => low,
    }
}

// C or P where x is the high or low price in force.
pub fn payoff_at(s: Series, t: Terms, x: u64) -> u64
    ensures { result ≡ charge s.option s t x }
{
    match s.option {
        OptionType::Call => call_payoff(s, t, x),
        OptionType::Put => put_payoff(s, t, x),
    }
}
