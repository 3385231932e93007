// Reads many account files on standard input, each as its length in four little-endian bytes and then its bytes, and
// writes the amount of each row of each file, in row order, up to the refusal that the row after the last one gets.
#![tactic(auto)]

use framing::{CutOff, for_each_file};
use position::amount::amount_for_row;
use rules::{MOST_BYTES, MOST_POSITIONS};

// Writes the amount of each row, and the refusal that the row after the last one gets.
fn print_amounts(rt: &impl Print, file: &[u8]) {
    for row in 0..=MOST_POSITIONS as u64 {
        match amount_for_row(file, row) {
            Ok(amount) => {
                let _ = println!(rt; "amount {row} {amount}");
            }
            Err(refused) => {
                let _ = println!(rt; "refused {refused}");
                return;
            }
        }
    }
}

fn main(rt: HostRuntime) {
    let mut space = [0u8; MOST_BYTES + 1];
    let run: Result<(), CutOff> = for_each_file(
        &mut rt.stdin(),
        &mut space,
        &mut |file| {
            print_amounts(&rt, file);
            Ok(())
        },
    );
    if let Err(cut_off) = run {
        let _ = println!(rt; "{cut_off}");
    }
}
