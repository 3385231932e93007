// What a row means.
ghost use Rattle.std.specs.Prelude.{◌≡◌};
ghost use Rattle.rules.specs.File.{barrier_of, flags_of, limiter_of, option_of, position_of, series_of, side_of};

use crate::{
    Barrier, Flags, Limiter, OptionType, Position, PositionRow, Series, SeriesRow, Side, Terms,
};

impl From<u32> for OptionType {
    ghost from_gives = { λ n option. option ≡ option_of n };

    fn from(n: u32) -> OptionType {
        match n {
            0 => OptionType::Call,
            _ => OptionType::Put,
        }
    }
}

impl From<u32> for Side {
    ghost from_gives = { λ n side. side ≡ side_of n };

    fn from(n: u32) -> Side {
        match n {
            0 => Side::Held,
            _ => Side::Written,
        }
    }
}

// The flags, each one bit.
impl From<u32> for Flags {
    ghost from_gives = { λ n flags. flags ≡ flags_of n };

    fn from(n: u32) -> Flags {
        Flags {
            knockedIn: n % 2 == 1,
            limited: n / 2 % 2 == 1,
            european: n / 4 % 2 == 1,
            beforeAnnex: n / 8 % 2 == 1,
            knockedOut: n / 16 % 2 == 1,
        }
    }
}

// The kind is the row's number, which `wrong_terms` refuses above 4 (a). No `From`, which takes one value (d).
pub fn barrier_of(kind: u32, price: u32) -> Barrier
    ensures { result ≡ barrier_of kind price }
{
    match kind {
        1 => Barrier::UpIn(price),
        2 => Barrier::DownIn(price),
        3 => Barrier::UpOut(price),
        4 => Barrier::DownOut(price),
        _ => Barrier::NoBarrier,
    }
}

// No `From`, which takes one value (d).
pub fn limiter_of(limited: bool, pb: u32) -> Limiter
    ensures { result ≡ limiter_of limited pb }
{
    if limited {
        Limiter::At(pb)
    } else {
        Limiter::NoLimiter
    }
}

impl From<SeriesRow> for Series {
    ghost from_gives = { λ r series. series ≡ series_of r };

    fn from(r: SeriesRow) -> Series {
        Series {
            pv: r.pv,
            fa: r.fa,
            fb: r.fb,
            f3: r.f3,
            m: r.m,
            option: r.option.into(),
        }
    }
}

impl From<PositionRow> for Position {
    ghost from_gives = { λ r position. position ≡ position_of r };

    fn from(r: PositionRow) -> Position {
        let flags = Flags::from(r.flags);
        let terms = Terms {
            pe: r.pe,
            limiter: limiter_of(flags.limited, r.pb),
            barrier: barrier_of(r.kind, r.price),
            reb: r.reb,
        };
        Position {
            series: r.series,
            side: r.side.into(),
            terms,
            flags,
            q: r.q,
            blocked: r.blocked,
            premium: r.premium,
        }
    }
}
