// The unit spread margin, rule by rule.
ghost use Rattle.std.specs.Prelude.{◌≡◌, cond};
ghost use Rattle.rules.specs.Spreads.{one_kind_spread, same, spread_between, strike_loss};
ghost use Rattle.rules.specs.declared.Barrier.TheVariants.{DownOut, UpOut};

use crate::limiters::limiter_bars;
use crate::out::{down_out_spread, up_out_spread};
use crate::terms::same_terms;
use numbers::{fine_units, less};
use rules::{Barrier, OptionType, Series, Terms};

// No barriers: max(0; PEh − PEw) for calls, max(0; PEw − PEh) for puts.
fn strike_loss(option: OptionType, h: Terms, w: Terms) -> u64
    ensures { result ≡ strike_loss option h w }
{
    match option {
        OptionType::Call => less(fine_units(h.pe), fine_units(w.pe)),
        OptionType::Put => less(fine_units(w.pe), fine_units(h.pe)),
    }
}

// Both up-and-out pair with OUh ≥ OUw.
fn both_up_out(ouw: u32, ouh: u32, s: Series, h: Terms, w: Terms) -> Option<u64>
    ensures { result ≡ one_kind_spread (UpOut ouw) ouh s h w }
{
    (ouw <= ouh).then(|| up_out_spread(s, ouh, ouw, h, w))
}

// Both down-and-out pair with ODh ≤ ODw.
fn both_down_out(odw: u32, odh: u32, s: Series, h: Terms, w: Terms) -> Option<u64>
    ensures { result ≡ one_kind_spread (DownOut odw) odh s h w }
{
    (odh <= odw).then(|| down_out_spread(s, odh, odw, h, w))
}

// Rows that pair with identical rows only: 0 for those, no pair for others.
fn identical_spread(h: Terms, w: Terms) -> Option<u64>
    ensures { result ≡ cond (same h w) (Some 0) None }
{
    same_terms(h, w).then_some(0)
}

// The unit spread margin of a held and a written row, of normalised positions, or no pair. Identical rows are asked for
// only where no other rows pair, which is with knock-ins: elsewhere the rules give them 0 by themselves, and their limiters
// bar no pair.
pub fn spread_between(s: Series, h: Terms, w: Terms) -> Option<u64>
    ensures { result ≡ spread_between s h w }
{
    if limiter_bars(s.option, h.limiter, w.limiter) {
        return None;
    }
    match (h.barrier, w.barrier) {
        (Barrier::NoBarrier, Barrier::NoBarrier) => Some(strike_loss(s.option, h, w)),
        (Barrier::UpIn(_), Barrier::UpIn(_)) | (Barrier::DownIn(_), Barrier::DownIn(_)) => {
            identical_spread(h, w)
        }
        (Barrier::UpOut(ouh), Barrier::UpOut(ouw)) => both_up_out(ouw, ouh, s, h, w),
        (Barrier::DownOut(odh), Barrier::DownOut(odw)) => both_down_out(odw, odh, s, h, w),
        _ => None,
    }
}
