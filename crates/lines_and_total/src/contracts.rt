// The contracts of each row that may be paired, before any pair is made.
ghost use Rattle.std.specs.Prelude.{◌≤◌, length};
ghost use Rattle.account.specs.Accepted.{account_in};
ghost use Rattle.lines_and_total.specs.Listing.{ContractsTo};

use account::accepted::AcceptedFile;
use account::lookup::position_at;

// Q less the blocked, of each row of an accepted file.
pub fn fill_contracts(file: &AcceptedFile<'_>, left: &mut [u64])
    requires { file.now.layout.positions ≤ length left.old }
    ensures { ContractsTo (account_in file.now) left.new file.now.layout.positions }
{
    for row in 0..file.layout.positions {
        let position = position_at(file, row);
        left[row] = (position.q - position.blocked) as u64;
    }
}
