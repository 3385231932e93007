// Lines as plain numbers, three to a line: a row and contracts are small, so that kind, second and third number stand in one.
#![tactic(auto)]

ghost use Rattle.std.specs.Prelude.{◌+◌, ◌*◌, ◌≤◌, length, ◌&&◌, ◌≡◌};
ghost use Rattle.lines.specs.LineNumbers.{LineWritten, Packable, line_from, numbers_per_line};
ghost use Rattle.rules.specs.Instalments.{same_line};
ghost use Rattle.rules.specs.Limits.{most_positions};
ghost use Rattle.rules.specs.Lines.{entries_for};

use rules::{Line, MOST_LINES, MOST_POSITIONS};

// The numbers of one line, `numbers_per_line` in contracts.
pub const NUMBERS_PER_LINE: usize = 3;

// The numbers of as many lines as an account has at most, `most_numbers` in contracts.
pub const MOST_NUMBERS: usize = NUMBERS_PER_LINE * MOST_LINES;

// The numbers of as many lines as an account has pairs at most, `most_pair_numbers` in contracts.
pub const MOST_PAIR_NUMBERS: usize = NUMBERS_PER_LINE * MOST_POSITIONS;

// How many entries a list needs for an account of p positions.
pub fn entries_for(p: usize) -> usize
    requires { p ≤ most_positions }
    ensures { result ≡ entries_for p }
{
    2 * p
}

// Line i of the numbers. Three plain numbers to a line: document 01 has lines written "after the core over plain numbers" (a).
pub fn line_at(numbers: &[u64], i: usize) -> Line
    requires { numbers_per_line * i + numbers_per_line ≤ length numbers.now }
    ensures { result ≡ line_from numbers.now i }
{
    let at = NUMBERS_PER_LINE * i;
    let head = numbers[at];
    Line {
        kind: head % 4,
        secondNumber: head / 4 % 256,
        thirdNumber: head / 1_024,
        fourthNumber: numbers[at + 1],
        fifthNumber: numbers[at + 2],
    }
}

// Whether the lines before line i are the same, and line i of the numbers has the same five numbers as this line.
pub fn same_too(before: bool, numbers: &[u64], i: usize, line: Line) -> bool
    requires { numbers_per_line * i + numbers_per_line ≤ length numbers.now }
    ensures { result ≡ (before && same_line (line_from numbers.now i) line) }
{
    before & (line_at(numbers, i) == line)
}

// Line k written as three numbers.
pub fn put_line(numbers: &mut [u64], k: usize, line: Line)
    requires { (numbers_per_line * k + numbers_per_line ≤ length numbers.old) × Packable line }
    ensures { LineWritten k line numbers.old numbers.new }
{
    let at = NUMBERS_PER_LINE * k;
    numbers[at] = line.kind + line.secondNumber * 4 + line.thirdNumber * 1_024;
    numbers[at + 1] = line.fourthNumber;
    numbers[at + 2] = line.fifthNumber;
}
