// Two positions compared by their terms.
ghost use Rattle.std.specs.Prelude.{◌≡◌};
ghost use Rattle.rules.specs.Spreads.{same, same_barrier, same_limiter, strike_covers};

use rules::{Barrier, Limiter, OptionType, Terms};

// A limiter at 0 is not the same as none. Compared by match, as document 01 has it (a).
fn same_limiter(h: Limiter, w: Limiter) -> bool
    ensures { result ≡ same_limiter h w }
{
    match (h, w) {
        (Limiter::NoLimiter, Limiter::NoLimiter) => true,
        (Limiter::At(held), Limiter::At(written)) => held == written,
        _ => false,
    }
}

// The same kind of barrier at the same price.
// A match and no derived equality: document 01's form has a normalised position compared by match (a).
fn same_barrier(h: Barrier, w: Barrier) -> bool
    ensures { result ≡ same_barrier h w }
{
    match (h, w) {
        (Barrier::NoBarrier, Barrier::NoBarrier) => true,
        (Barrier::UpIn(held), Barrier::UpIn(written))
        | (Barrier::DownIn(held), Barrier::DownIn(written))
        | (Barrier::UpOut(held), Barrier::UpOut(written))
        | (Barrier::DownOut(held), Barrier::DownOut(written)) => held == written,
        _ => false,
    }
}

// Same PE, limiter, barrier and REB: no derived equality, since document 01 has them compared by match (a).
pub fn same_terms(h: Terms, w: Terms) -> bool
    ensures { result ≡ same h w }
{
    (h.pe == w.pe)
        & same_limiter(h.limiter, w.limiter)
        & same_barrier(h.barrier, w.barrier)
        & (h.reb == w.reb)
}

// Call with PEh ≤ PEw, put with PEh ≥ PEw.
pub fn strike_covers(option: OptionType, h: Terms, w: Terms) -> bool
    ensures { result ≡ strike_covers option h w }
{
    match option {
        OptionType::Call => h.pe <= w.pe,
        OptionType::Put => w.pe <= h.pe,
    }
}
