// The reading of a file: accepted with where its rows stand, or refused with the row.
ghost use Rattle.std.specs.Prelude.{◌≡◌, ◌<◌};
ghost use Rattle.rules.specs.Limits.{Placed};
ghost use Rattle.rules.specs.Refusals.{file_read, position_read, position_rows, series_rows};

use crate::checks::wrong_terms;
use crate::faults::{matched_fault, series_row_fault, trailer_fault};
use crate::rows::{layout_of, position_row, series_row};
use rules::{Layout, Position, Refusal, Refused};

// Position row i: the position, or its refusal. Its series is looked up once refusal 7 has passed.
pub fn position_read(file: &[u8], l: Layout, i: usize) -> Result<Position, Refusal>
    requires { Placed file.now l × (i < l.positions) }
    ensures { result ≡ position_read file.now l i }
{
    let row = position_row(file, l, i);
    if wrong_terms(l.series, row) {
        return Err(Refusal::PositionTerms);
    }
    let series = series_row(file, l, row.series as usize);
    matched_fault(series, row)?;
    Ok(row.into())
}

// The position rows, the trailer and the series rows being clean. Bytes and layout stay apart: the file may still be refused (a).
fn position_rows(file: &[u8], l: Layout) -> Result<Layout, Refused>
    requires { Placed file.now l }
    ensures { result ≡ position_rows file.now l }
{
    for row in 0..l.positions {
        let Err(why) = position_read(file, l, row) else {
            continue;
        };
        return Err(Refused { why, row });
    }
    Ok(l)
}

// The series rows, then the position rows.
fn series_rows(file: &[u8], l: Layout) -> Result<Layout, Refused>
    requires { Placed file.now l }
    ensures { result ≡ series_rows file.now l }
{
    for row in 0..l.series {
        if let Err(why) = series_row_fault(series_row(file, l, row)) {
            return Err(Refused { why, row });
        }
    }
    position_rows(file, l)
}

// The whole file, of any length and content.
pub fn read_file(file: &[u8]) -> Result<Layout, Refused>
    ensures { result ≡ file_read file.now }
{
    trailer_fault(file)?;
    series_rows(file, layout_of(file))
}
