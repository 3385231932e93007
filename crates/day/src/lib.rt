// What the day crossed: a file brought up to date with the high, low and close of one of its series, in the lent bytes.
#![tactic(auto)]

ghost use Rattle.std.specs.Prelude.{◌<◌, ◌≡◌};
ghost use Rattle.account.specs.Known.{Known};
ghost use Rattle.rules.specs.Day.{day_answer, day_written, file_after, wrong_day};
ghost use Rattle.rules.specs.Refusals.{file_read};

use crate::flags::write_flags;
use account::reader::read_file;
use rules::{Day, Layout, Refusal, Refused, SERIES_WIDTH};
use writing::write_u32;

pub mod flags;

// Refusal 17's test.
fn wrong_day(d: Day) -> bool
    ensures { result ≡ wrong_day d }
{
    (d.high < d.low)
        | ((d.close < d.low) | (d.high < d.close))
        | ((d.high < 1) | (10_000_000 < d.high))
        | ((d.low < 1) | (10_000_000 < d.low))
        | ((d.close < 1) | (10_000_000 < d.close))
}

// The flags of the series' rows, then its PV, in an accepted file. Bytes and layout stay apart, since the bytes are written (a).
fn write_day(file: &mut [u8], l: Layout, d: Day)
    requires { Known file.old l × (d.series < l.series) }
    ensures { file.new ≡ day_written file.old l d }
{
    write_flags(file, l, d);
    write_u32(
        file,
        l.seriesStart + SERIES_WIDTH * (d.series as usize),
        d.close,
    );
}

// A day for an accepted file: refusals 16 and 17, then what it writes.
#[tactic(auto, using(crate::proofs::Refused::absent_answer, crate::proofs::Refused::absent_bytes))]
fn day_of_accepted(file: &mut [u8], l: Layout, d: Day) -> Result<(), Refused>
    requires { file_read file.old ≡ Ok l }
    ensures answer { result ≡ day_answer file.old d }
    ensures bytes { file.new ≡ file_after file.old d }
{
    let absent = (l.series as u64) <= d.series;
    let wrong = wrong_day(d);
    if absent {
        return Err(Refusal::SeriesAskedFor.into());
    }
    if wrong {
        return Err(Refusal::DayPrices.into());
    }
    write_day(file, l, d);
    Ok(())
}

// A day for any bytes: the reading's refusals first. On every refusal the bytes keep their content.
pub fn apply_day(file: &mut [u8], d: Day) -> Result<(), Refused>
    ensures answer { result ≡ day_answer file.old d }
    ensures bytes { file.new ≡ file_after file.old d }
{
    let l = read_file(file)?;
    day_of_accepted(file, l, d)
}
