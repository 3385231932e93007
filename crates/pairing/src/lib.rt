// The pairing over an accepted file: the definition's repeated choice, with the held rows in the order of their strikes
// so that looking again costs one step, and the next pair from a tree of minima over the rows' ranks.
#![tactic(auto)]

pub mod cursors;
pub mod make;
pub mod pairs;
pub mod queue;
pub mod rows;
pub mod rows_now;

use rules::{MOST_POSITIONS, Series, Tally, Terms};

// A written row as a search reads it once: its terms after flag 1, its series and its unit margin.
#[derive(Clone, Copy)]
pub struct Written {
    pub row: usize,
    pub terms: Terms,
    pub series: Series,
    pub unit: u64,
}

// What is kept of a written row: the rank of its nearest pair (strike difference, written row and held row in one
// number), the unit of that pair's spread, and the row's places in the up and the down lane.
#[derive(Clone, Copy)]
pub struct Standing {
    pub rank: u64,
    pub spread: u64,
    pub up: u64,
    pub down: u64,
}

// The columns of the places, beside the up lane's from 0 on: the down lane's, and the units of the spreads. In contracts
// `down_column` and `spread_column`, by which `Standings` speaks of one list (a).
pub const DOWN_PLACES: usize = MOST_POSITIONS;

pub const SPREADS: usize = 2 * MOST_POSITIONS;

// The numbers of the places, and of the tree over the rows.
pub const PLACES_SIZE: usize = 3 * MOST_POSITIONS;

pub const TREE_SIZE: usize = 2 * MOST_POSITIONS;

// The pairs after a call: how many of the first `count` there are, and all that are then made.
#[derive(Clone, Copy)]
pub struct Instalment {
    pub first: usize,
    pub pairs: Tally,
}
