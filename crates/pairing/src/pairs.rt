// The pairs of an accepted file, all or the first of them.
ghost use Rattle.std.specs.Prelude.{◌+◌};
ghost use Rattle.account.specs.Accepted.{account_in};
ghost use Rattle.pairing.specs.Pairing.{PairedUp, PairingAsked, RoundsAsked, RoundsMade};

use crate::make::make_pair;
use crate::queue::fill_rows;
use crate::rows_now::RowsNow;
use crate::{Instalment, PLACES_SIZE, SPREADS, TREE_SIZE};
use account::accepted::AcceptedFile;
use lanes::keys::NONE;
use rules::Tally;
use tree::set_leaves;

// Round by round after the pairs that there are: the pair of the least rank, until no row has one or as many are made as
// allowed at most. With each pair the allowance falls.
fn pair_rounds(
    file: &AcceptedFile<'_>,
    left: &mut [u64],
    numbers: &mut [u64],
    table: &[u64],
    tree: &mut [u64],
    places: &mut [u64],
    before: Tally,
    most: u64,
) -> Tally
    requires { RoundsAsked file.now.bytes.now file.now.layout left.old numbers.old table.now tree.old places.old before }
    ensures { RoundsMade (before.count + most) (account_in file.now) left.new numbers.new table.now tree.new places.new result }
{
    let mut k = before.count;
    let mut total = before.total;
    let mut allowance = most;
    // No `for`: document 01 names this form, "Pair allowance falls; pairs made stand in the result and equal the definition's count".
    while 0 < allowance {
        let rows = RowsNow {
            file: *file,
            left,
            table,
        };
        let m = rows.best_rank(tree, places);
        if NONE <= m {
            return Tally { count: k, total };
        }
        let w = (m / 256 % 256) as usize;
        let h = (m % 256) as usize;
        total += make_pair(file, left, numbers, k, w, h, places[SPREADS + w]);
        k += 1;
        allowance -= 1;
    }
    Tally { count: k, total }
}

// The first `count` pairs of an accepted file, and then as many more as allowed: left holds the contracts of each row and is
// lowered, the pairs are written as lines from line 0 on, and their amounts added up. The table is filled on the way, and
// has the unit margins for the lines of rows left. It is made with the lists that are written anew after it, so that a call
// sets no further ones to 0 but a number for each series.
// Without rows there is nothing to pair, and a tree has at least one leaf.
pub fn pair_up(
    file: &AcceptedFile<'_>,
    count: u64,
    allowance: u64,
    table: &mut [u64],
    left: &mut [u64],
    numbers: &mut [u64],
) -> Instalment
    requires { PairingAsked file.now.bytes.now file.now.layout table.old left.old numbers.old }
    ensures { PairedUp (account_in file.now) count allowance table.new left.new numbers.new result }
{
    let none = Tally { count: 0, total: 0 };
    if file.layout.positions == 0 {
        return Instalment {
            first: 0,
            pairs: none,
        };
    }
    let mut tree = [0u64; TREE_SIZE];
    let mut places = [0u64; PLACES_SIZE];
    fill_rows(file, table, numbers, &mut tree, &mut places);
    set_leaves(&mut tree, file.layout.positions, NONE);
    let rows = RowsNow {
        file: *file,
        left,
        table,
    };
    rows.begin_rows(&mut tree, &mut places);
    let first = pair_rounds(
        file,
        left,
        numbers,
        table,
        &mut tree,
        &mut places,
        none,
        count,
    );
    let pairs = pair_rounds(
        file,
        left,
        numbers,
        table,
        &mut tree,
        &mut places,
        first,
        allowance,
    );
    Instalment {
        first: first.count,
        pairs,
    }
}
