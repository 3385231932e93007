// Numbers, rows and a trailer stored into lent bytes, as document 01 lays them out.
#![tactic(auto)]

ghost use Rattle.std.specs.Prelude.{◌+◌, ◌≤◌, length, ◌≡◌};
ghost use Rattle.std.proofs.lemmas.List.Edits.{sets};
ghost use Rattle.rules.specs.File.{position_width, series_width, trailer_width};
ghost use Rattle.rules.specs.Limits.{most_positions, most_series};
ghost use Rattle.rules.specs.Writing.{bytes4, bytes_of_position, bytes_of_series, bytes_of_trailer};

use rules::{POSITION_WIDTH, PositionRow, SERIES_WIDTH, SeriesRow, TRAILER_WIDTH};

// Bytes from a place of the file on.
#[tactic(auto, using(crate::proofs::RowsStored::part_stored))]
fn write_bytes(file: &mut [u8], at: usize, bytes: &[u8])
    requires { at + length bytes.now ≤ length file.old }
    ensures { file.new ≡ sets file.old at bytes.now }
{
    file[at..at + bytes.len()].copy_from_slice(bytes);
}

// The four little-endian bytes of a number from a place of the file on.
pub fn write_u32(file: &mut [u8], at: usize, v: u64)
    requires { at + 4 ≤ length file.old }
    ensures { file.new ≡ sets file.old at (bytes4 v) }
{
    write_bytes(file, at, &v.to_le_bytes()[..4]);
}

// A series row from a place of the file on.
#[tactic(auto, using(crate::proofs::RowsStored::series_stored))]
pub fn write_series_row(file: &mut [u8], at: usize, row: SeriesRow)
    requires { at + series_width ≤ length file.old }
    ensures { file.new ≡ sets file.old at (bytes_of_series row) }
{
    write_bytes(file, at, &row.pv.to_le_bytes());
    write_bytes(file, at + 4, &row.fa.to_le_bytes());
    write_bytes(file, at + 8, &row.fb.to_le_bytes());
    write_bytes(file, at + 12, &row.f3.to_le_bytes());
    write_bytes(file, at + 16, &row.m.to_le_bytes());
    write_bytes(file, at + 20, &row.option.to_le_bytes()[..1]);
    write_bytes(file, at + 21, &row.spare.to_le_bytes()[..3]);
}

// A position row from a place of the file on.
#[tactic(auto, using(crate::proofs::RowsStored::position_stored))]
pub fn write_position_row(file: &mut [u8], at: usize, row: PositionRow)
    requires { at + position_width ≤ length file.old }
    ensures { file.new ≡ sets file.old at (bytes_of_position row) }
{
    write_bytes(file, at, &row.series.to_le_bytes()[..2]);
    write_bytes(file, at + 2, &row.side.to_le_bytes()[..1]);
    write_bytes(file, at + 3, &row.kind.to_le_bytes()[..1]);
    write_bytes(file, at + 4, &row.flags.to_le_bytes()[..1]);
    write_bytes(file, at + 5, &row.blocked.to_le_bytes()[..3]);
    write_bytes(file, at + 8, &row.q.to_le_bytes());
    write_bytes(file, at + 12, &row.pe.to_le_bytes());
    write_bytes(file, at + 16, &row.pb.to_le_bytes());
    write_bytes(file, at + 20, &row.price.to_le_bytes());
    write_bytes(file, at + 24, &row.reb.to_le_bytes());
    write_bytes(file, at + 28, &row.premium.to_le_bytes());
}

// The trailer of a file of s series and p positions, from a place of the file on.
#[tactic(auto, using(crate::proofs::RowsStored::trailer_stored))]
pub fn write_trailer(file: &mut [u8], at: usize, s: usize, p: usize)
    requires { (at + trailer_width ≤ length file.old) × (s ≤ most_series) × (p ≤ most_positions) }
    ensures { file.new ≡ sets file.old at (bytes_of_trailer s p) }
{
    let distance = TRAILER_WIDTH + SERIES_WIDTH * s + POSITION_WIDTH * p;
    write_bytes(file, at, &s.to_le_bytes()[..2]);
    write_bytes(file, at + 2, &p.to_le_bytes()[..2]);
    write_bytes(file, at + 4, &distance.to_le_bytes()[..4]);
    write_bytes(file, at + 8, &[0; 4]);
}
