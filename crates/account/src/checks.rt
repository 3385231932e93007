// The checks of a row, each test the Bool that its definition is: no branch, so that code and definition are read side
// by side.
ghost use Rattle.std.specs.Prelude.{◌≡◌};
ghost use Rattle.rules.specs.Refusals.{wrong_barrier_price, wrong_barrier_side, wrong_limiter, wrong_range, wrong_series_range, wrong_series_type, wrong_terms};

use rules::{Flags, PositionRow, SeriesRow};

pub fn wrong_series_range(r: SeriesRow) -> bool
    ensures { result ≡ wrong_series_range r }
{
    ((r.pv < 1) | (10_000_000 < r.pv))
        | ((r.fa < 1_000_000) | (10_000_000 < r.fa))
        | (r.fa < r.fb)
        | (1_000_000 < r.f3)
        | ((r.m < 1) | (1_000 < r.m))
}

pub fn wrong_series_type(r: SeriesRow) -> bool
    ensures { result ≡ wrong_series_type r }
{
    (1 < r.option) | !(r.spare == 0)
}

pub fn wrong_terms(s: usize, r: PositionRow) -> bool
    ensures { result ≡ wrong_terms s r }
{
    let flags = Flags::from(r.flags);
    (s <= (r.series as usize))
        | (1 < r.side)
        | (4 < r.kind)
        | ((31 < r.flags)
            | (flags.knockedIn & ((r.kind < 1) | (2 < r.kind)))
            | (flags.knockedOut & ((r.kind < 3) | (4 < r.kind))))
        | ((r.side == 1) & !(r.blocked == 0))
}

pub fn wrong_range(r: PositionRow) -> bool
    ensures { result ≡ wrong_range r }
{
    ((r.q < 1) | (100_000 < r.q))
        | ((r.pe < 1) | (10_000_000 < r.pe))
        | (10_000_000 < r.reb)
        | (10_000_000 < r.premium)
        | ((r.side == 1) & !(r.premium == 0))
        | (r.q < r.blocked)
}

pub fn wrong_limiter(option: u32, r: PositionRow) -> bool
    ensures { result ≡ wrong_limiter option r }
{
    let flags = Flags::from(r.flags);
    (!flags.limited & !(r.pb == 0))
        | (flags.limited & (option == 0) & ((r.pb <= r.pe) | (10_000_000 < r.pb)))
        | (flags.limited & !(option == 0) & (r.pe <= r.pb))
}

pub fn wrong_barrier_price(r: PositionRow) -> bool
    ensures { result ≡ wrong_barrier_price r }
{
    ((r.kind == 0) & (!(r.price == 0) | !(r.reb == 0)))
        | (!(r.kind == 0) & ((r.price < 1) | (10_000_000 < r.price)))
}

pub fn wrong_barrier_side(pv: u32, r: PositionRow) -> bool
    ensures { result ≡ wrong_barrier_side pv r }
{
    let flags = Flags::from(r.flags);
    (!flags.knockedIn & !flags.knockedOut)
        & ((((r.kind == 1) | (r.kind == 3)) & (r.price <= pv))
            | (((r.kind == 2) | (r.kind == 4)) & (pv <= r.price)))
}
