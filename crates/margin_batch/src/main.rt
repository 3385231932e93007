// Reads many account files on standard input, each as its length in four little-endian bytes and then its bytes, and
// writes each one's margin and an empty line. A file that is cut off ends the run, and so do 1,000,000,000 files and an
// answer that cannot be written, which is told of on standard error: no later answer may stand in its place. The space is
// one byte more than a file may have.
#![tactic(auto)]

use framing::{CutOff, for_each_file};
use rules::MOST_BYTES;
use statement::print_margin;
use std::io::Write;

// What ends a run before the input does.
#[derive(Clone, Copy)]
enum Stop {
    CutOff(CutOff),
    Unwritten,
}

impl From<CutOff> for Stop {
    fn from(cut_off: CutOff) -> Stop {
        Stop::CutOff(cut_off)
    }
}

// Writes one file's margin and an empty line.
fn report<W: Write>(out: &mut W, file: &[u8]) -> Result<(), Stop> {
    print_margin(out, file).map_err(|_| Stop::Unwritten)?;
    out.write_all(b"\n").map_err(|_| Stop::Unwritten)
}

fn main(rt: HostRuntime) {
    let mut out = rt.stdout();
    let mut space = [0u8; MOST_BYTES + 1];
    let run = for_each_file(
        &mut rt.stdin(),
        &mut space,
        &mut |file| report(&mut out, file),
    );
    match run {
        Ok(()) => {}
        Err(Stop::CutOff(cut_off)) => {
            let _ = println!(rt; "the last account is {cut_off}");
        }
        Err(Stop::Unwritten) => {
            let _ = eprintln!(rt;
                "margin_batch: an answer could not be written; it and those of all later accounts are missing"
            );
        }
    }
}
