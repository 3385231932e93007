// The premiums of the held rows.
ghost use Rattle.std.specs.Prelude.{◌*◌, ◌≤◌, ◌<◌, ◌≡◌};
ghost use Rattle.account.specs.Accepted.{account_in};
ghost use Rattle.position.specs.Fits.{RowFits};
ghost use Rattle.rules.specs.Limits.{most_positions};
ghost use Rattle.rules.specs.Lines.{held_premium, premium_at, premiums};

use account::accepted::AcceptedFile;
use account::lookup::{position_at, series_of_position};
use position::amount::premium_amount;
use rules::{Position, Series, Side};

// A held position's premium, 0 for a written one.
fn held_premium(s: Series, p: Position) -> u64
    requires { RowFits s p }
    ensures { (result ≡ held_premium p.side s p) × (result ≤ 1_000_000_000_000_000) }
{
    match p.side {
        Side::Held => premium_amount(s, p),
        Side::Written => 0,
    }
}

// The premium of a row of an accepted file. Most rows have none; then the row's series is not read.
fn row_premium(file: &AcceptedFile<'_>, row: usize) -> u64
    requires { row < file.now.layout.positions }
    ensures { (result ≡ premium_at (account_in file.now) row) × (result ≤ 1_000_000_000_000_000) }
{
    let p = position_at(file, row);
    if p.premium == 0 {
        return 0;
    }
    let s = series_of_position(file, p);
    held_premium(s, p)
}

// The premiums of all held rows, paired or not.
pub fn premium_sum(file: &AcceptedFile<'_>) -> u64
    ensures { (result ≡ premiums (account_in file.now)) × (result ≤ 1_000_000_000_000_000 * most_positions) }
{
    let mut total: u64 = 0;
    for row in 0..file.layout.positions {
        total += row_premium(file, row);
    }
    total
}
