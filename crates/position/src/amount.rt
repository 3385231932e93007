// The amount of one position of a file.
ghost use Rattle.std.specs.Prelude.{◌≤◌, ◌<◌, ◌≡◌};
ghost use Rattle.account.specs.Accepted.{account_in};
ghost use Rattle.position.specs.Fits.{RowFits, amount_in};
ghost use Rattle.rules.specs.OnePosition.{amount_answer, amount_by_side, position_amount, premium_of};

use crate::margin::unit_margin;
use crate::quantities::normalised;
use account::accepted::AcceptedFile;
use account::lookup::{accept, position_at, series_of_position};
use numbers::amount;
use rules::{Position, Refusal, Refused, Series, Side};

// premium × M × Q, exact.
pub fn premium_amount(s: Series, p: Position) -> u64
    requires { RowFits s p }
    ensures { (result ≡ premium_of s p) × (result ≤ 1_000_000_000_000_000) }
{
    (p.premium as u64) * (s.m as u64) * (p.q as u64)
}

// A position's amount: a held one's premium, a written one's margin.
pub fn amount_by_side(s: Series, p: Position) -> u64
    requires { RowFits s p }
    ensures { (result ≡ amount_by_side p.side s p) × (result ≤ 10_000_000_000_000_000) }
{
    match p.side {
        Side::Held => premium_amount(s, p),
        Side::Written => amount(
            unit_margin(s, normalised(p), p.flags.knockedOut),
            s.m,
            p.q as u64,
        ),
    }
}

// The amount of a row of an accepted file.
pub fn row_amount(file: &AcceptedFile<'_>, row: usize) -> u64
    requires { row < file.now.layout.positions }
    ensures { (result ≡ position_amount (account_in file.now) row) × (result ≤ 10_000_000_000_000_000) }
{
    let p = position_at(file, row);
    let s = series_of_position(file, p);
    amount_by_side(s, p)
}

// The amount of a row of any file, or the refusal: the reading's first, then 13.
pub fn amount_for_row(file: &[u8], row: u64) -> Result<u64, Refused>
    ensures { (result ≡ amount_answer file.now row) × (amount_in result ≤ 10_000_000_000_000_000) }
{
    let accepted = accept(file)?;
    if (accepted.layout.positions as u64) <= row {
        return Err(Refusal::RowAskedFor.into());
    }
    Ok(row_amount(&accepted, row as usize))
}
