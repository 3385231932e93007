// Whether limiters bar a pair.
ghost use Rattle.std.specs.Prelude.{◌≡◌};
ghost use Rattle.rules.specs.Spreads.{held_nearer, limiter_bars};

use rules::{Limiter, OptionType};

// PBh < PBw for calls, PBh > PBw for puts.
fn held_nearer(option: OptionType, held: u32, written: u32) -> bool
    ensures { result ≡ held_nearer option held written }
{
    match option {
        OptionType::Call => held < written,
        OptionType::Put => written < held,
    }
}

// A held limiter bars the pair where the written row has none or a farther one.
pub fn limiter_bars(option: OptionType, h: Limiter, w: Limiter) -> bool
    ensures { result ≡ limiter_bars option h w }
{
    match (h, w) {
        (Limiter::NoLimiter, _) => false,
        (Limiter::At(_), Limiter::NoLimiter) => true,
        (Limiter::At(held), Limiter::At(written)) => held_nearer(option, held, written),
    }
}
