// Reads one account file on standard input and writes its margin. The space is one byte more than a file may have, so
// that a longer one is refused and not cut short. An answer that cannot be written is told of on standard error.
#![tactic(auto)]

use framing::read_full;
use rules::MOST_BYTES;

fn main(rt: HostRuntime) {
    let mut space = [0u8; MOST_BYTES + 1];
    let n = read_full(&mut rt.stdin(), &mut space);
    if statement::print_margin(&mut rt.stdout(), &space[..n]).is_err() {
        let _ = eprintln!(rt; "margin: the answer could not be written");
    }
}
