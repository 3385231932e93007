// Where a file's rows stand, and a row's numbers as they stand there. Bytes and layout stay apart: the file may still be
// refused (a).
ghost use Rattle.std.specs.Prelude.{◌+◌, ◌*◌, ◌≤◌, ◌<◌, length, ◌≡◌};
ghost use Rattle.rules.specs.File.{distance, layout, position_count, position_row, position_row_from, position_width, series_count, series_row, series_row_from, series_width, trailer_spare, trailer_width};
ghost use Rattle.rules.specs.Limits.{Placed, TrailerWithin};

use crate::bytes::{u8_at, u16_at, u24_at, u32_at};
use rules::{Layout, POSITION_WIDTH, PositionRow, SERIES_WIDTH, SeriesRow, TRAILER_WIDTH};

// The trailer's four numbers.

pub fn series_count(file: &[u8]) -> u32
    requires { trailer_width ≤ length file.now }
    ensures { (result ≡ series_count file.now) × (result < 65536) }
{
    u16_at(file, file.len() - TRAILER_WIDTH)
}

pub fn position_count(file: &[u8]) -> u32
    requires { trailer_width ≤ length file.now }
    ensures { (result ≡ position_count file.now) × (result < 65536) }
{
    u16_at(file, file.len() - 10)
}

pub fn distance_back(file: &[u8]) -> u32
    requires { trailer_width ≤ length file.now }
    ensures { result ≡ distance file.now }
{
    u32_at(file, file.len() - 8)
}

pub fn trailer_spare(file: &[u8]) -> u32
    requires { trailer_width ≤ length file.now }
    ensures { result ≡ trailer_spare file.now }
{
    u32_at(file, file.len() - 4)
}

// Where the tables stand.
pub fn layout_of(file: &[u8]) -> Layout
    requires { TrailerWithin file.now }
    ensures { result ≡ layout file.now }
{
    let series = series_count(file) as usize;
    let positions = position_count(file) as usize;
    let start = file.len() - (distance_back(file) as usize);
    Layout {
        series,
        positions,
        seriesStart: start,
        positionsStart: start + SERIES_WIDTH * series,
        width: POSITION_WIDTH,
    }
}

// The two rows have other fields; what their readers share are calls (d).
pub fn series_row_from(file: &[u8], at: usize) -> SeriesRow
    requires { at + series_width ≤ length file.now }
    ensures { result ≡ series_row_from file.now at }
{
    SeriesRow {
        pv: u32_at(file, at),
        fa: u32_at(file, at + 4),
        fb: u32_at(file, at + 8),
        f3: u32_at(file, at + 12),
        m: u32_at(file, at + 16),
        option: u8_at(file, at + 20),
        spare: u24_at(file, at + 21),
    }
}

pub fn position_row_from(file: &[u8], at: usize) -> PositionRow
    requires { at + position_width ≤ length file.now }
    ensures { result ≡ position_row_from file.now at }
{
    PositionRow {
        series: u16_at(file, at),
        side: u8_at(file, at + 2),
        kind: u8_at(file, at + 3),
        flags: u8_at(file, at + 4),
        blocked: u24_at(file, at + 5),
        q: u32_at(file, at + 8),
        pe: u32_at(file, at + 12),
        pb: u32_at(file, at + 16),
        price: u32_at(file, at + 20),
        reb: u32_at(file, at + 24),
        premium: u32_at(file, at + 28),
    }
}

// Series row i.
pub fn series_row(file: &[u8], l: Layout, i: usize) -> SeriesRow
    requires { Placed file.now l × (i < l.series) }
    ensures { result ≡ series_row file.now l i }
{
    series_row_from(file, l.seriesStart + SERIES_WIDTH * i)
}

// Position row i.
pub fn position_row(file: &[u8], l: Layout, i: usize) -> PositionRow
    requires { Placed file.now l × (i < l.positions) }
    ensures { result ≡ position_row file.now l i }
{
    position_row_from(file, l.positionsStart + l.width * i)
}
