// How near the nearest limiter among the written rows of each series is.
ghost use Rattle.std.specs.Prelude.{◌<◌, ◌≤◌, length, ◌≡◌};
ghost use Rattle.account.specs.Accepted.{account_in};
ghost use Rattle.lanes.specs.Limiters.{Nearest, if_written, nearness, price_nearness};
ghost use Rattle.rules.specs.Limits.{most_series};

use account::accepted::AcceptedFile;
use account::lookup::{position_at, series_of_position};
use numbers::{larger, less};
use rules::{Limiter, OptionType, Position, Series, Side};

// How near a limiter at this price is: greater where it is nearer.
fn price_nearness(option: OptionType, pb: u32) -> u64
    ensures { result ≡ price_nearness option pb }
{
    match option {
        OptionType::Call => less(10_000_001, pb as u64),
        OptionType::Put => (pb as u64) + 1,
    }
}

fn series_nearness(s: Series, pb: u32) -> u64
    ensures { result ≡ price_nearness s.option pb }
{
    price_nearness(s.option, pb)
}

// How near a row's limiter is; 0 without one.
pub fn nearness_of(file: &AcceptedFile<'_>, p: Position) -> u64
    requires { p.series < file.now.layout.series }
    ensures { result ≡ nearness ((account_in file.now).series_at p.series).option p.terms.limiter }
{
    match p.terms.limiter {
        Limiter::NoLimiter => 0,
        Limiter::At(pb) => series_nearness(series_of_position(file, p), pb),
    }
}

// The same for a written row, 0 for a held one.
fn written_nearness(file: &AcceptedFile<'_>, p: Position) -> u64
    requires { p.series < file.now.layout.series }
    ensures { result ≡ if_written p.side (nearness ((account_in file.now).series_at p.series).option p.terms.limiter) }
{
    match p.side {
        Side::Held => 0,
        Side::Written => nearness_of(file, p),
    }
}

// How near the nearest limiter of each series' written rows is; the list holds zeros before the call.
pub fn fill_nearest(file: &AcceptedFile<'_>, near: &mut [u64])
    requires { (most_series ≤ length near.old) × Nearest (account_in file.now) 0 near.old }
    ensures { Nearest (account_in file.now) file.now.layout.positions near.new }
{
    for r in 0..file.layout.positions {
        let p = position_at(file, r);
        let s = p.series as usize;
        near[s] = larger(near[s], written_nearness(file, p));
    }
}
