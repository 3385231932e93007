// The rows as they stand in a round: what each look at a row rests on.
ghost use Rattle.pairing.specs.OneProof.{rests_once};
ghost use Rattle.pairing.specs.Resting.{Rests};

use account::accepted::AcceptedFile;

// An accepted file, the contracts left of each row, and the table of the rows.
#[derive(Clone, Copy)]
pub struct RowsNow<'a> {
    pub file: AcceptedFile<'a>,
    pub left: &'a [u64],
    pub table: &'a [u64],
    ghost rests: { Rests file.bytes.now file.layout left.now table.now } by { rests_once file.bytes.now file.layout left.now table.now },
}
