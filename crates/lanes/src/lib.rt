// The lanes: held rows in the order of their strikes, upwards and downwards, and the table of what is kept of each row.
#![tactic(auto)]

pub mod keys;
pub mod limiters;
pub mod links;
pub mod table;

use rules::MOST_POSITIONS;

// The columns of the table, a number of each row in each: the marks from 0 on, the links of the up and the down lane, the
// unit margins, and the lines of rows with the same terms. In contracts `up_lane` and so on. Columns of one list, and no list of
// structs: `Keys.Links`, `Marks.Table` and what rests on them name the columns (a).
pub const UP: usize = MOST_POSITIONS;

pub const DOWN: usize = 2 * MOST_POSITIONS;

pub const UNITS: usize = 3 * MOST_POSITIONS;

pub const LINES: usize = 4 * MOST_POSITIONS;

// The numbers of the table.
pub const TABLE_SIZE: usize = 5 * MOST_POSITIONS;
