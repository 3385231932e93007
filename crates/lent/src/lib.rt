// What the operations on a lent list of lines share: the one function that reads its entries and the one that writes them.
#![tactic(auto)]

ghost use Rattle.std.specs.Prelude.{◌*◌, ◌≤◌, length, ◌≡◌};
ghost use Rattle.lent.specs.Entries.{entries_written};
ghost use Rattle.lines.specs.LineNumbers.{lines_from, numbers_per_line};
ghost use Rattle.rules.specs.Instalments.{begins_with};

use lines::{line_at, same_too};
use rules::Line;

// Whether the list begins with the first `n` lines of the numbers.
pub fn agree(lines: &[Line], n: usize, numbers: &[u64]) -> bool
    requires { (n ≤ length lines.now) × (numbers_per_line * n ≤ length numbers.now) }
    ensures { result ≡ begins_with (lines_from numbers.now n) lines.now }
{
    let mut same = true;
    for i in 0..n {
        same = same_too(same, numbers, i, lines[i]);
    }
    same
}

// Writes the lines `from` to `n` - 1 of the numbers into the entries of the same number; every other entry stays.
pub fn write_entries(lines: &mut [Line], from: usize, n: usize, numbers: &[u64])
    requires { (from ≤ n) × (n ≤ length lines.old) × (numbers_per_line * n ≤ length numbers.now) }
    ensures { lines.new ≡ entries_written numbers.now from n lines.old }
{
    for i in from..n {
        lines[i] = line_at(numbers, i);
    }
}
