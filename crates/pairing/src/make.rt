// One pair made: its line written, its two quantities lowered.
ghost use Rattle.std.specs.Prelude.{◌≤◌, ◌<◌, ◌≡◌};
ghost use Rattle.account.specs.Accepted.{account_in};
ghost use Rattle.pairing.specs.Pairing.{PairAsked, PairWritten};
ghost use Rattle.rules.specs.File.{series_of_row};
ghost use Rattle.rules.specs.OnePosition.{amount_of};

use account::accepted::AcceptedFile;
use account::rows::{position_row, series_row};
use lines::put_line;
use numbers::{amount, smaller};
use rules::Line;

// The amount of q contracts of row w at this unit: unit × M × q, rounded up once.
fn pair_amount(file: &AcceptedFile<'_>, w: usize, unit: u64, q: u64) -> u64
    requires { (w < file.now.layout.positions) × (unit ≤ 100_000_000_000_000) × (q ≤ 100_000) }
    ensures { (result ≡ amount_of unit (series_of_row (account_in file.now) w).m q) × (result ≤ 10_000_000_000_000_000) }
{
    let row = position_row(file.bytes, file.layout, w);
    let series = series_row(file.bytes, file.layout, row.series as usize);
    amount(unit, series.m, q)
}

pub fn make_pair(
    file: &AcceptedFile<'_>,
    left: &mut [u64],
    numbers: &mut [u64],
    k: usize,
    w: usize,
    h: usize,
    spread: u64,
) -> u64
    requires { PairAsked file.now.bytes.now file.now.layout left.old numbers.old k w h spread }
    ensures { PairWritten (account_in file.now) k w h left.old numbers.old left.new numbers.new result }
{
    let x = left[w];
    let y = left[h];
    let q = smaller(x, y);
    let money = pair_amount(file, w, spread, q);
    left[w] = x - q;
    left[h] = y - q;
    let line = Line {
        kind: 1,
        secondNumber: w as u64,
        thirdNumber: h as u64,
        fourthNumber: q,
        fifthNumber: money,
    };
    put_line(numbers, k, line);
    money
}
