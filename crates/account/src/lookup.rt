// The series and positions of an accepted file, by row; and the reading that accepts it.
ghost use Rattle.std.specs.Prelude.{◌<◌, ◌≡◌, MatchResult, Err};
ghost use Rattle.account.specs.Accepted.{account_in};
ghost use Rattle.rules.specs.Refusals.{file_read};

use crate::accepted::AcceptedFile;
use crate::reader::read_file;
use crate::rows::{position_row, series_row};
use rules::{Position, Refused, Series};

// A file of any length and content, accepted or refused.
pub fn accept(bytes: &[u8]) -> Result<AcceptedFile<'_>, Refused>
    ensures { MatchResult result (λ file. file.bytes.now ≡ bytes.now) (λ refused. file_read bytes.now ≡ Err refused) }
{
    let layout = read_file(bytes)?;
    Ok(AcceptedFile { bytes, layout })
}

pub fn position_at(file: &AcceptedFile<'_>, row: usize) -> Position
    requires { row < file.now.layout.positions }
    ensures { result ≡ (account_in file.now).position_at row }
{
    position_row(file.bytes, file.layout, row).into()
}

// The series of a position.
pub fn series_of_position(file: &AcceptedFile<'_>, p: Position) -> Series
    requires { p.series < file.now.layout.series }
    ensures { result ≡ (account_in file.now).series_at p.series }
{
    series_row(file.bytes, file.layout, p.series as usize).into()
}
