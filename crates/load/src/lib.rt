// Accounts for the bench, the same on every machine: document 02, request 10.
#![tactic(auto)]

ghost use Rattle.std.specs.Prelude.{drop, length, ◌++◌, ◌≡◌};
ghost use Rattle.load.specs.Load.{LoadWithin, buffer_after, load_answer, load_file, load_size, wrong_load};

use crate::rows::{position_drawn, series_drawn};
use rules::{MOST_POSITIONS, POSITION_WIDTH, Refusal, Refused, SERIES_WIDTH};
use writing::{write_position_row, write_series_row, write_trailer};

pub mod draws;
pub mod rows;

// The largest seed: `most_seed` in contracts.
pub const MOST_SEED: u64 = 2_147_483_646;

// Refusal 20's test. Where p is within its range the file's size fits 64 bits.
fn wrong_load(seed: u64, p: u64, room: usize) -> bool
    ensures { result ≡ wrong_load seed p room }
{
    if ((seed < 1) | (MOST_SEED < seed)) | ((p < 1) | ((MOST_POSITIONS as u64) < p)) {
        return true;
    }
    (room as u64) < 36 + 32 * p
}

// The file of a seed and p rows, at the beginning of the buffer.
fn write_load(buffer: &mut [u8], seed: u64, p: usize)
    requires { LoadWithin seed p (length buffer.old) }
    ensures { buffer.new ≡ load_file seed p ++ drop (load_size p) buffer.old }
{
    let drawn = series_drawn(seed);
    let series = drawn.row;
    write_series_row(buffer, 0, series);
    let mut t = drawn.state;
    for r in 0..p {
        let next = position_drawn(series.pv, t);
        let row = next.row;
        write_position_row(buffer, SERIES_WIDTH + POSITION_WIDTH * r, row);
        t = next.state;
    }
    write_trailer(buffer, SERIES_WIDTH + POSITION_WIDTH * p, 1, p);
}

// An account of p rows from a seed, at the beginning of the buffer: the bytes of its file, or the refusal, on which the buffer
// keeps its content. Any numbers and any buffer may be handed over.
pub fn load(seed: u64, p: u64, buffer: &mut [u8]) -> Result<u64, Refused>
    ensures answer { result ≡ load_answer seed p (length buffer.old) }
    ensures bytes { buffer.new ≡ buffer_after seed p buffer.old }
{
    if wrong_load(seed, p, buffer.len()) {
        return Err(Refusal::LoadAskedFor.into());
    }
    write_load(buffer, seed, p as usize);
    Ok(36 + 32 * p)
}
