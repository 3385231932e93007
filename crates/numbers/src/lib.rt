// Numbers: the larger and the smaller of two, a difference that stops at 0, a product, and an amount with its one
// rounding up. No function here has a branch.
#![tactic(auto)]

ghost use Rattle.std.specs.Prelude.{◌*◌, ◌-◌, ◌≤◌, max, min, cond, ◌≡◌};
ghost use Rattle.rules.specs.OnePosition.{amount_of};
ghost use Rattle.rules.specs.Quantities.{fine};

// a where the test holds, else b, computed from the test as a number, 1 or 0 (document 02 [4]).
fn chosen(test: bool, a: u64, b: u64) -> u64
    ensures { result ≡ cond test a b }
{
    let holds = test as u64;
    a * holds + b * (1 - holds)
}

// No `max`, `min` or `saturating_sub` of the library: document 02 [4] asks for no branch (a).
pub fn larger(a: u64, b: u64) -> u64
    ensures { result ≡ max a b }
{
    chosen(b <= a, a, b)
}

pub fn smaller(a: u64, b: u64) -> u64
    ensures { result ≡ min a b }
{
    chosen(a <= b, a, b)
}

// max(0; a − b): by how much the larger of the two is above b.
pub fn less(a: u64, b: u64) -> u64
    ensures { result ≡ a - b }
{
    larger(a, b) - b
}

pub fn product(a: u32, b: u32) -> u64
    ensures { result ≡ a * b }
{
    (a as u64) * (b as u64)
}

// Ticks in fine units.
pub fn fine_units(ticks: u32) -> u64
    ensures { result ≡ fine ticks }
{
    (ticks as u64) * 1_000_000
}

// unit × M × Q, divided by 1,000,000 and rounded up once, to a multiple of 100 centavos (document 02 [6]). The product can
// pass 64 bits, so the whole hundreds of ticks of the unit and the rest of it are multiplied apart.
pub fn amount(unit: u64, m: u32, q: u64) -> u64
    requires { (unit ≤ 100_000_000_000_000) × (m ≤ 1_000) × (q ≤ 100_000) }
    ensures { (result ≡ amount_of unit m q) × (result ≤ 10_000_000_000_000_000) }
{
    let n = (m as u64) * q;
    ((unit / 100_000_000) * n + ((unit % 100_000_000) * n + 99_999_999) / 100_000_000) * 100
}
