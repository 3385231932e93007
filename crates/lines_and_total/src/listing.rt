// The lines of an account: of its first pairs, and of the rows with contracts left after them.
ghost use Rattle.std.specs.Prelude.{length, ◌≡◌};
ghost use Rattle.account.specs.Accepted.{account_in};
ghost use Rattle.lines.specs.LineNumbers.{most_numbers, most_pair_numbers};
ghost use Rattle.lines_and_total.specs.Listing.{AccountListed, PairsListed};

use crate::Listed;
use crate::contracts::fill_contracts;
use crate::left::left_rows;
use account::accepted::AcceptedFile;
use lanes::TABLE_SIZE;
use pairing::Instalment;
use pairing::pairs::pair_up;
use rules::MOST_POSITIONS;

// The first `count` pairs as made, or all where there are fewer, then the rows with contracts left after them.
pub fn list_lines(file: &AcceptedFile<'_>, count: u64, numbers: &mut [u64]) -> Listed
    requires { length numbers.old ≡ most_numbers }
    ensures { AccountListed (account_in file.now) count numbers.new result }
{
    let mut left = [0u64; MOST_POSITIONS];
    fill_contracts(file, &mut left);
    let mut table = [0u64; TABLE_SIZE];
    let made = pair_up(file, count, 0, &mut table, &mut left, numbers);
    let lines = left_rows(file, &table, &left, numbers, made.pairs);
    Listed {
        first: made.first,
        lines,
    }
}

// The first `count` pairs as made, and then as many more as allowed. What it shares with `list_lines` are calls (d).
pub fn list_pairs(
    file: &AcceptedFile<'_>,
    count: u64,
    allowance: u64,
    numbers: &mut [u64],
) -> Instalment
    requires { length numbers.old ≡ most_pair_numbers }
    ensures { PairsListed (account_in file.now) count allowance numbers.new result }
{
    let mut left = [0u64; MOST_POSITIONS];
    fill_contracts(file, &mut left);
    let mut table = [0u64; TABLE_SIZE];
    pair_up(file, count, allowance, &mut table, &mut left, numbers)
}
