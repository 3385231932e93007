// The numbers of the refusals: those of a file, those given after it, and those of calls that take no file.
#![tactic(auto)]

ghost use Rattle.std.specs.Prelude.{◌≡◌};
ghost use Rattle.rules.specs.Refusals.{number};

use rules::Refusal;

// The number of a refusal.
pub fn refusal_number(why: Refusal) -> u32
    ensures { result ≡ number why }
{
    why as u32
}
