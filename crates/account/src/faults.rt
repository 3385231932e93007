// The checks of the trailer and of a row, in document 01's order: the first fault, or none.
ghost use Rattle.std.specs.Prelude.{◌≡◌, ◌≤◌, length};
ghost use Rattle.rules.specs.File.{trailer_width};
ghost use Rattle.rules.specs.Refusals.{matched_fault, series_row_fault, trailer_fault, wrong_distance, wrong_trailer};

use crate::checks::{
    wrong_barrier_price, wrong_barrier_side, wrong_limiter, wrong_range, wrong_series_range,
    wrong_series_type,
};
use crate::rows::{distance_back, position_count, series_count, trailer_spare};
use rules::{
    MOST_BYTES, MOST_POSITIONS, MOST_SERIES, POSITION_WIDTH, PositionRow, Refusal, SERIES_WIDTH,
    SeriesRow, TRAILER_WIDTH,
};

fn wrong_trailer(file: &[u8]) -> bool
    requires { trailer_width ≤ length file.now }
    ensures { result ≡ wrong_trailer file.now }
{
    let s = series_count(file) as usize;
    let p = position_count(file) as usize;
    let spare = trailer_spare(file);
    ((s < 1) | (MOST_SERIES < s)) | (MOST_POSITIONS < p) | !(spare == 0)
}

fn wrong_distance(file: &[u8]) -> bool
    requires { trailer_width ≤ length file.now }
    ensures { result ≡ wrong_distance file.now }
{
    let s = series_count(file) as usize;
    let p = position_count(file) as usize;
    let distance = distance_back(file) as usize;
    !(distance == TRAILER_WIDTH + SERIES_WIDTH * s + POSITION_WIDTH * p) | (file.len() < distance)
}

pub fn trailer_fault(file: &[u8]) -> Result<(), Refusal>
    ensures { result ≡ trailer_fault file.now }
{
    let n = file.len();
    if (n < TRAILER_WIDTH) | (MOST_BYTES < n) {
        return Err(Refusal::FileSize);
    }
    if wrong_trailer(file) {
        return Err(Refusal::Trailer);
    }
    if wrong_distance(file) {
        return Err(Refusal::Distance);
    }
    Ok(())
}

pub fn series_row_fault(r: SeriesRow) -> Result<(), Refusal>
    ensures { result ≡ series_row_fault r }
{
    if wrong_series_range(r) {
        return Err(Refusal::SeriesRange);
    }
    if wrong_series_type(r) {
        return Err(Refusal::SeriesType);
    }
    Ok(())
}

pub fn matched_fault(k: SeriesRow, r: PositionRow) -> Result<(), Refusal>
    ensures { result ≡ matched_fault k r }
{
    if wrong_range(r) {
        return Err(Refusal::PositionRange);
    }
    if wrong_limiter(k.option, r) {
        return Err(Refusal::LimiterPrice);
    }
    if wrong_barrier_price(r) {
        return Err(Refusal::BarrierPrice);
    }
    if wrong_barrier_side(k.pv, r) {
        return Err(Refusal::BarrierSide);
    }
    Ok(())
}
