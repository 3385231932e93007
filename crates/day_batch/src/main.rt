// Reads many days with their files on standard input, each as a length in four little-endian bytes and then so many bytes:
// the day's series, high, low and close in eight little-endian bytes each, and the file. Writes for each `day`, or `refused`
// with number and row, then the file's bytes as they are after the day, of a file that is too long the first 65,537, and a
// line feed. An input that is cut off, or a case without a whole day, ends the run with a line that says so; so do
// 1,000,000,000 cases, without one.
#![tactic(auto)]

ghost use Rattle.std.specs.Prelude.{◌+◌, ◌≤◌, length};

use day::apply_day;
use framing::{CutOff, for_each_file};
use rules::{Day, MOST_BYTES};
use std::fmt;

// The bytes of a day.
const DAY_WIDTH: usize = 32;

// What ends a run before the input does.
#[derive(Clone, Copy)]
enum Stop {
    CutOff(CutOff),
    NoDay,
}

impl From<CutOff> for Stop {
    fn from(cut_off: CutOff) -> Stop {
        Stop::CutOff(cut_off)
    }
}

impl fmt::Display for Stop {
    fn fmt<W: fmt::Write>(&self, f: &mut fmt::Formatter<W>) -> fmt::Result {
        match self {
            Stop::CutOff(cut_off) => write!(f, "{cut_off}"),
            Stop::NoDay => write!(f, "no day"),
        }
    }
}

// The number of eight little-endian bytes.
fn u64_at(bytes: &[u8], i: usize) -> u64
    requires { i + 8 ≤ length bytes.now }
{
    u64::from_le_bytes(bytes[i..i + 8].try_into().unwrap())
}

// The day at the front of a case.
fn day_at(bytes: &[u8]) -> Day
    requires { 32 ≤ length bytes.now }
{
    Day {
        series: u64_at(bytes, 0),
        high: u64_at(bytes, 8),
        low: u64_at(bytes, 16),
        close: u64_at(bytes, 24),
    }
}

// Applies the day at the front of a case to the file after it, and writes the answer and the file.
fn report(rt: &impl Print, case: &mut [u8]) -> Result<(), Stop> {
    if case.len() < DAY_WIDTH {
        return Err(Stop::NoDay);
    }
    let d = day_at(case);
    let file = &mut case[DAY_WIDTH..];
    let _ = match apply_day(file, d) {
        Ok(()) => println!(rt; "day"),
        Err(refused) => println!(rt; "refused {refused}"),
    };
    let _ = rt.write_all(file);
    let _ = rt.write_all(b"\n");
    Ok(())
}

fn main(rt: HostRuntime) {
    let mut space = [0u8; DAY_WIDTH + MOST_BYTES + 1];
    let run = for_each_file(&mut rt.stdin(), &mut space, &mut |case| report(&rt, case));
    if let Err(stop) = run {
        let _ = println!(rt; "{stop}");
    }
}
