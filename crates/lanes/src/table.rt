// The table of an account's rows.
ghost use Rattle.std.specs.Prelude.{◌<◌, ◌≡◌};
ghost use Rattle.account.specs.Accepted.{account_in};
ghost use Rattle.lanes.specs.Keys.{fits_lanes};
ghost use Rattle.lanes.specs.Limiters.{if_written};
ghost use Rattle.lanes.specs.Marks.{FitsAsked, Marked, MarksAsked, TableAsked, TableFilled};
ghost use Rattle.rules.specs.OnePosition.{unit_margin};

use crate::UNITS;
use crate::keys::mark_of;
use crate::limiters::{fill_nearest, nearness_of};
use crate::links::{fill_keys, fill_links};
use account::accepted::AcceptedFile;
use account::lookup::{position_at, series_of_position};
use position::margin::unit_margin;
use position::quantities::normalised;
use rules::{MOST_SERIES, Position, Side};

// The unit margin of a written row, 0 for a held one.
fn unit_of_row(file: &AcceptedFile<'_>, p: Position) -> u64
    requires { p.series < file.now.layout.series }
    ensures { result ≡ if_written p.side (unit_margin ((account_in file.now).series_at p.series) p) }
{
    match p.side {
        Side::Held => 0,
        Side::Written => unit_margin(
            series_of_position(file, p),
            normalised(p),
            p.flags.knockedOut,
        ),
    }
}

// Whether a held row fits the lanes: its limiter is no nearer than the nearest of its series' written rows, and some of its
// contracts are not blocked.
fn fits_lanes(file: &AcceptedFile<'_>, near: &[u64], p: Position, row: usize) -> bool
    requires { FitsAsked file.now.bytes.now file.now.layout near.now p row }
    ensures { result ≡ fits_lanes (account_in file.now) row }
{
    (nearness_of(file, p) <= near[p.series as usize]) & (p.blocked < p.q)
}

// Marks and unit margins of all rows.
fn fill_marks(file: &AcceptedFile<'_>, near: &[u64], table: &mut [u64])
    requires { MarksAsked file.now.bytes.now file.now.layout near.now table.old }
    ensures { Marked (account_in file.now) file.now.layout.positions table.old table.new }
{
    for r in 0..file.layout.positions {
        let p = position_at(file, r);
        table[r] = mark_of(fits_lanes(file, near, p, r), p);
        table[UNITS + r] = unit_of_row(file, p);
    }
}

// The table, and the places and rows of the written rows that pair, in ascending order; how many those are. Two lists more
// are lent to make it with.
pub fn fill_table(
    file: &AcceptedFile<'_>,
    table: &mut [u64],
    written: &mut [u64],
    keys: &mut [u64],
    starts: &mut [u64],
) -> usize
    requires { TableAsked file.now.bytes.now file.now.layout table.old written.old keys.old starts.old }
    ensures { TableFilled (account_in file.now) table.old table.new written.new result }
{
    let mut near = [0u64; MOST_SERIES];
    fill_nearest(file, &mut near);
    fill_marks(file, &near, table);
    let n = fill_keys(table, file.layout.positions, 1, written);
    fill_links(table, file.layout.positions, written, n, keys, starts);
    n
}
