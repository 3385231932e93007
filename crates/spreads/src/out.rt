// The spread of two rows that knock out.
ghost use Rattle.std.specs.Prelude.{◌≡◌};
ghost use Rattle.rules.specs.Spreads.{down_out_spread, D, out_spread, R, up_out_spread};

use crate::terms::strike_covers;
use numbers::{fine_units, larger, less, smaller};
use position::quantities::{high_price, low_price, minimum_margin, rebate_of};
use rules::{OptionType, Series, Terms};

// R: REBw, or max(0; REBw − REBh) where the barriers are equal.
fn rebate_loss(equal: bool, h: Terms, w: Terms) -> u64
    ensures { result ≡ R equal h w }
{
    if equal {
        return less(rebate_of(w), rebate_of(h));
    }
    rebate_of(w)
}

// D at the low and high price in force.
fn out_loss(option: OptionType, low: u64, high: u64, h: Terms, w: Terms) -> u64
    ensures { result ≡ D option low high h w }
{
    match option {
        OptionType::Call => less(smaller(fine_units(h.pe), high), fine_units(w.pe)),
        OptionType::Put => less(fine_units(w.pe), larger(fine_units(h.pe), low)),
    }
}

// R or 0 where the held strike covers; else max(MM; D), with R in the maximum where the barrier is reachable.
fn out_spread(covers: bool, reachable: bool, s: Series, loss: u64, difference: u64) -> u64
    ensures { result ≡ out_spread covers reachable s loss difference }
{
    if covers {
        if reachable {
            return loss;
        }
        return 0;
    }
    if reachable {
        return larger(minimum_margin(s), larger(loss, difference));
    }
    larger(minimum_margin(s), difference)
}

// Both down-and-out: the held barrier's price and the written one's. L replaced by the written barrier where that is
// reachable is the larger of the two.
pub fn down_out_spread(s: Series, odh: u32, odw: u32, h: Terms, w: Terms) -> u64
    ensures { result ≡ down_out_spread s odh odw h w }
{
    let barrier = fine_units(odw);
    let low = low_price(s);
    let reachable = low <= barrier;
    let covers = strike_covers(s.option, h, w);
    let loss = rebate_loss(odh == odw, h, w);
    let difference = out_loss(s.option, larger(barrier, low), high_price(s), h, w);
    out_spread(covers, reachable, s, loss, difference)
}

// Both up-and-out. H replaced by the written barrier where that is reachable is the smaller of the two.
pub fn up_out_spread(s: Series, ouh: u32, ouw: u32, h: Terms, w: Terms) -> u64
    ensures { result ≡ up_out_spread s ouh ouw h w }
{
    let barrier = fine_units(ouw);
    let high = high_price(s);
    let reachable = barrier <= high;
    let covers = strike_covers(s.option, h, w);
    let loss = rebate_loss(ouh == ouw, h, w);
    let difference = out_loss(s.option, low_price(s), smaller(barrier, high), h, w);
    out_spread(covers, reachable, s, loss, difference)
}
