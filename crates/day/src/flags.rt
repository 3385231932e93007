// The flags of a file's rows after the day.
ghost use Rattle.std.specs.Prelude.{◌≤◌, ◌<◌, set, ◌≡◌};
ghost use Rattle.account.specs.Known.{Known};
ghost use Rattle.rules.specs.Day.{crossed_in, crossed_out, flags_after, flags_crossed, flags_place, flags_written};
ghost use Rattle.rules.specs.File.{position_row};
ghost use Rattle.rules.specs.Limits.{Placed};

use account::rows::position_row;
use rules::values::barrier_of;
use rules::{Barrier, Day, Layout};

// The day knocked the barrier in. Of the same shape as the next: each matches the kinds that its definition has, and one for both
// would take these as an argument (d).
fn crossed_in(d: Day, barrier: Barrier) -> bool
    ensures { result ≡ crossed_in d barrier }
{
    match barrier {
        Barrier::UpIn(price) => (price as u64) <= d.high,
        Barrier::DownIn(price) => d.low <= (price as u64),
        _ => false,
    }
}

// The day knocked the barrier out.
fn crossed_out(d: Day, barrier: Barrier) -> bool
    ensures { result ≡ crossed_out d barrier }
{
    match barrier {
        Barrier::UpOut(price) => (price as u64) <= d.high,
        Barrier::DownOut(price) => d.low <= (price as u64),
        _ => false,
    }
}

// The flags of a row of the day's series.
fn flags_crossed(d: Day, barrier: Barrier, flags: u32) -> u32
    requires { flags ≤ 31 }
    ensures { (result ≡ flags_crossed d barrier flags) × (result ≤ 31) }
{
    if crossed_in(d, barrier) {
        return flags + (1 - flags % 2);
    }
    if crossed_out(d, barrier) {
        return flags + 16 * (1 - flags / 16 % 2);
    }
    flags
}

// Writes row r's flags, if the row is of the day's series.
fn write_row_flags(file: &mut [u8], l: Layout, d: Day, r: usize)
    requires { Placed file.old l × (r < l.positions) × ((position_row file.old l r).flags ≤ 31) }
    ensures { file.new ≡ set file.old (flags_place l r) (flags_after d (position_row file.old l r)) }
{
    let row = position_row(file, l, r);
    if (row.series as u64) == d.series {
        let flags = flags_crossed(d, barrier_of(row.kind, row.price), row.flags);
        file[l.positionsStart + l.width * r + 4] = flags as u8;
    }
}

// Writes the flags of all rows of the day's series. Bytes and layout stay apart, since the bytes are written (a).
pub fn write_flags(file: &mut [u8], l: Layout, d: Day)
    requires { Known file.old l }
    ensures { file.new ≡ flags_written file.old l d l.positions }
{
    for r in 0..l.positions {
        write_row_flags(file, l, d, r);
    }
}
