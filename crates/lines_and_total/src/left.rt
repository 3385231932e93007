// The lines of the rows with contracts left.
ghost use Rattle.std.specs.Prelude.{◌+◌, ◌≤◌, ◌≡◌};
ghost use Rattle.account.specs.Accepted.{account_in};
ghost use Rattle.numbers.specs.Lists.{nth};
ghost use Rattle.lines_and_total.specs.Listing.{Added, AmountAsked, LeftAsked, LeftRead, RowAsked, RowsAsked, left_of, shown_left};
ghost use Rattle.rules.specs.Lines.{left_amount, left_amount_at, left_lines};

use account::accepted::AcceptedFile;
use account::lookup::{position_at, series_of_position};
use lanes::UNITS;
use lines::put_line;
use numbers::amount;
use rules::{Line, Position, Series, Side, Tally};

// The amount of q contracts left: a written position's margin, of this unit, 0 for a held one.
fn left_by_side(s: Series, p: Position, unit: u64, q: u64) -> u64
    requires { LeftAsked s p unit q }
    ensures { (result ≡ left_amount p.side s p q) × (result ≤ 10_000_000_000_000_000) }
{
    match p.side {
        Side::Held => 0,
        Side::Written => amount(unit, s.m, q),
    }
}

// The amount of q contracts left in a row of an accepted file.
fn left_amount(file: &AcceptedFile<'_>, row: usize, unit: u64, q: u64) -> u64
    requires { AmountAsked file.now.bytes.now file.now.layout row unit q }
    ensures { (result ≡ left_amount_at (account_in file.now) row q) × (result ≤ 10_000_000_000_000_000) }
{
    let p = position_at(file, row);
    let s = series_of_position(file, p);
    left_by_side(s, p, unit, q)
}

// The quantity of a row's left line: what pairing may still use of it, and the blocked contracts.
fn shown_left(file: &AcceptedFile<'_>, left: &[u64], row: usize) -> u64
    requires { LeftRead file.now.bytes.now file.now.layout left.now row }
    ensures { result ≡ shown_left (account_in file.now) (nth left.now) row }
{
    let p = position_at(file, row);
    left[row] + (p.blocked as u64)
}

// The line of a row, where it has contracts left, after the lines of t.
fn left_row(
    file: &AcceptedFile<'_>,
    table: &[u64],
    left: &[u64],
    numbers: &mut [u64],
    t: Tally,
    row: usize,
) -> Tally
    requires { RowAsked file.now.bytes.now file.now.layout table.now left.now numbers.old t row }
    ensures { Added (left_of (account_in file.now) (shown_left (account_in file.now) (nth left.now)) row) numbers.old numbers.new t result }
{
    let q = shown_left(file, left, row);
    if q == 0 {
        return t;
    }
    let money = left_amount(file, row, table[UNITS + row], q);
    let line = Line {
        kind: 2,
        secondNumber: row as u64,
        thirdNumber: q,
        fourthNumber: money,
        fifthNumber: 0,
    };
    put_line(numbers, t.count, line);
    Tally {
        count: t.count + 1,
        total: t.total + money,
    }
}

// The lines of all rows with contracts left, in row order, after the lines of `before`.
pub fn left_rows(
    file: &AcceptedFile<'_>,
    table: &[u64],
    left: &[u64],
    numbers: &mut [u64],
    before: Tally,
) -> Tally
    requires { RowsAsked file.now.bytes.now file.now.layout table.now left.now numbers.old before }
    ensures { Added (left_lines (account_in file.now) (shown_left (account_in file.now) (nth left.now)) file.now.layout.positions) numbers.old numbers.new before result }
{
    let mut t = before;
    for row in 0..file.layout.positions {
        t = left_row(file, table, left, numbers, t, row);
    }
    t
}
