// The unit margin of a written row, rule by rule over the barrier. One rule serves calls and puts: it charges the price
// that costs the writer most of those in force.
ghost use Rattle.std.specs.Prelude.{max, cond, ◌≡◌};
ghost use Rattle.rules.proofs.Mirror.{bare, most, rule, worst};
ghost use Rattle.rules.specs.OnePosition.{rebate, unit_by_flag16};
ghost use Rattle.rules.specs.Quantities.{minimum};
ghost use Rattle.rules.specs.declared.Barrier.TheVariants.{DownIn, DownOut, UpIn, UpOut};

use crate::quantities::{high_price, low_price, minimum_margin, payoff_at, rebate_of, worst_price};
use numbers::{fine_units, larger, product, smaller};
use rules::{Barrier, Series, Terms};

// max(MM; REB)
fn or_rebate(s: Series, t: Terms) -> u64
    ensures { result ≡ max (minimum s) (rebate t) }
{
    larger(minimum_margin(s), rebate_of(t))
}

// max(MM; payoff) over the prices from low to high.
fn bare_charge(s: Series, t: Terms, low: u64, high: u64) -> u64
    ensures { result ≡ bare s.option s t (worst s.option low high) }
{
    larger(
        minimum_margin(s),
        payoff_at(s, t, worst_price(s.option, low, high)),
    )
}

// max(MM; REB; payoff) over the prices from low to high.
fn most_charge(s: Series, t: Terms, low: u64, high: u64) -> u64
    ensures { result ≡ most s.option s t (worst s.option low high) }
{
    larger(
        minimum_margin(s),
        larger(
            rebate_of(t),
            payoff_at(s, t, worst_price(s.option, low, high)),
        ),
    )
}

// Up-and-in at b: out of reach, or the low price is b × fb from there.
fn up_in(b: u32, s: Series, t: Terms) -> u64
    ensures { result ≡ rule s.option (UpIn b) s t }
{
    let high = high_price(s);
    if high < fine_units(b) {
        return or_rebate(s, t);
    }
    most_charge(s, t, product(b, s.fb), high)
}

// Down-and-in at b: out of reach, or the high price is b × fa from there.
fn down_in(b: u32, s: Series, t: Terms) -> u64
    ensures { result ≡ rule s.option (DownIn b) s t }
{
    let low = low_price(s);
    if fine_units(b) < low {
        return or_rebate(s, t);
    }
    most_charge(s, t, low, product(b, s.fa))
}

// Of a knock-out that is out of reach max(MM; payoff), else max(MM; REB; payoff), over the prices from low to high.
fn out_charge(unreachable: bool, s: Series, t: Terms, low: u64, high: u64) -> u64
    ensures { result ≡ cond unreachable (bare s.option s t (worst s.option low high)) (most s.option s t (worst s.option low high)) }
{
    if unreachable {
        return bare_charge(s, t, low, high);
    }
    most_charge(s, t, low, high)
}

// Up-and-out at b: no price above b is paid on.
fn up_out(b: u32, s: Series, t: Terms) -> u64
    ensures { result ≡ rule s.option (UpOut b) s t }
{
    let high = high_price(s);
    let barrier = fine_units(b);
    out_charge(high < barrier, s, t, low_price(s), smaller(high, barrier))
}

// Down-and-out at b: no price below b is paid on.
fn down_out(b: u32, s: Series, t: Terms) -> u64
    ensures { result ≡ rule s.option (DownOut b) s t }
{
    let low = low_price(s);
    let barrier = fine_units(b);
    out_charge(barrier < low, s, t, larger(barrier, low), high_price(s))
}

// The rule of a barrier, of a normalised position.
fn unit_by(barrier: Barrier, s: Series, t: Terms) -> u64
    ensures { result ≡ rule s.option barrier s t }
{
    match barrier {
        Barrier::NoBarrier => most_charge(s, t, low_price(s), high_price(s)),
        Barrier::UpIn(b) => up_in(b, s, t),
        Barrier::DownIn(b) => down_in(b, s, t),
        Barrier::UpOut(b) => up_out(b, s, t),
        Barrier::DownOut(b) => down_out(b, s, t),
    }
}

// The unit margin of a written row, in fine units, by its terms after flag 1 is applied: its rebate where it has flag 16, else
// by its barrier.
pub fn unit_margin(s: Series, t: Terms, knockedOut: bool) -> u64
    ensures { result ≡ unit_by_flag16 knockedOut s t }
{
    if knockedOut {
        return rebate_of(t);
    }
    unit_by(t.barrier, s, t)
}
