// Prints crates/roots/src/table.rt: each root by counting up from the one before.
#![tactic(auto)]

ghost use Rattle.std.specs.Prelude.{◌+◌, ◌<◌};
ghost use Rattle.roots.specs.Roots.{Root, most_days};

use roots::MOST_DAYS;

// S(n + 1), counted up from S(n).
fn next_root(n: u64, root: u64) -> u64
    requires { (n < most_days) × Root n root }
    ensures { Root (n + 1) result }
{
    let mut s = root;
    // A `while`, as the test alone ends it: `(root..).find(..)` would give an `Option` that is never `None`.
    while s * s * 360 < (n + 1) * 1_000_000_000_000 {
        s += 1;
    }
    s
}

fn print_entry(rt: &impl Print, s: u64) {
    let _ = println!(rt; "    {s},");
}

fn main(rt: HostRuntime) {
    let _ = rt.write_all(
        b"// Entry n is S(n), the least s with s * s * 360 at least n * 10^12. Printed by the program roots_table.\npub const ROOTS: [u32; 1801] = [\n",
    );
    let mut s: u64 = 0;
    print_entry(&rt, s);
    for n in 0..MOST_DAYS {
        s = next_root(n, s);
        print_entry(&rt, s);
    }
    let _ = rt.write_all(b"];\n");
}
