// One position's answer as a signed number, as C takes it.
ghost use Rattle.std.specs.Prelude.{◌≤◌, ◌≡◌};
ghost use Rattle.position.specs.Fits.{amount_in};
ghost use Rattle.rules.specs.OnePosition.{signed_answer};

use refusals::refusal_number;
use rules::Refused;

// The amount, or minus the refusal's number.
pub fn signed(answer: Result<u64, Refused>) -> i64
    requires { amount_in answer ≤ 10_000_000_000_000_000 }
    ensures { result ≡ signed_answer answer }
{
    match answer {
        Ok(n) => n as i64,
        Err(refused) => -(refusal_number(refused.why) as i64),
    }
}
