// Prints, a line each, the factors of every code and number of days and the refusal of a day more; then the refusals of a code
// that is not there and of the greatest numbers.
#![tactic(auto)]

use factors::factors;
use roots::MOST_DAYS;

// A code, a number of days, and what they are answered.
fn print_factors(rt: &impl Print, code: u64, days: u64) {
    let _ = match factors(code, days) {
        Ok(given) => println!(rt; "{code} {days} {} {}", given.fa, given.fb),
        Err(refused) => println!(rt; "{code} {days} refused {refused}"),
    };
}

fn main(rt: HostRuntime) {
    for code in 0..4 {
        for days in 0..MOST_DAYS + 2 {
            print_factors(&rt, code, days);
        }
    }
    for (code, days) in [(4, 0), (u64::MAX, 0), (0, u64::MAX)] {
        print_factors(&rt, code, days);
    }
}
