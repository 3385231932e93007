// The states of the draws.
ghost use Rattle.std.specs.Prelude.{◌<◌, ◌≡◌};
ghost use Rattle.load.specs.Load.{modulus, next_state};

// The state after t. A state is below 2^31, so that the product passes 32 bits and stays far below 64.
pub fn next_state(t: u64) -> u64
    requires { t < modulus }
    ensures { (result ≡ next_state t) × (result < modulus) }
{
    48_271 * t % 2_147_483_647
}
