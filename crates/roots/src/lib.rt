// The square roots of the days, out of a table.
#![tactic(auto)]

ghost use Rattle.std.specs.Prelude.{◌≤◌};
ghost use Rattle.roots.specs.Roots.{Root, most_days};

use crate::table::ROOTS;

pub mod table;

// The most days: `most_days` in contracts.
pub const MOST_DAYS: u64 = 1_800;

// S(n).
pub fn root(n: usize) -> u32
    requires { n ≤ most_days }
    ensures { Root n result }
{
    ROOTS[n]
}
