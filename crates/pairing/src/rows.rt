// What is kept of each row, looked at again where one of its rows is spent.
ghost use Rattle.std.specs.Prelude.{◌+◌, ◌≤◌, ◌<◌, length, ltb, true, ◌&&◌, ◌≡◌};
ghost use Rattle.account.specs.Accepted.{account_in};
ghost use Rattle.lanes.specs.Keys.{none};
ghost use Rattle.numbers.specs.Lists.{nth};
ghost use Rattle.pairing.specs.Cursors.{Kept};
ghost use Rattle.pairing.specs.Standings.{BeginAllAsked, BeginAsked, Begun, BestRank, LeastAsked, Leaves, LookAsked, Looked, Nearer, NextAsked, PlacesPut, Raised, RankAsked, RenewAsked, Renewed, RowPut, RowsAsked, StaleAsked, Standings, down_column, places_size, spread_column};
ghost use Rattle.rules.specs.Limits.{most_positions};
ghost use Rattle.tree.specs.Tree.{Tree};

use crate::cursors::IDLE;
use crate::rows_now::RowsNow;
use crate::{DOWN_PLACES, SPREADS, Standing};
use lanes::keys::NONE;
use lanes::{DOWN, LINES, UP};
use tree::{fill, put_leaf};

fn put_places(places: &mut [u64], w: usize, t: Standing)
    requires { (places_size ≤ length places.old) × (w < most_positions) }
    ensures { PlacesPut places.old places.new w t }
{
    places[w] = t.up;
    places[DOWN_PLACES + w] = t.down;
    places[SPREADS + w] = t.spread;
}

fn both_left(left: &[u64], w: usize, h: usize) -> bool
    requires { (most_positions ≤ length left.now) × (w < most_positions) × (h < most_positions) }
    ensures { result ≡ (ltb 0 (nth left.now w) && ltb 0 (nth left.now h)) }
{
    (0 < left[w]) & (0 < left[h])
}

// Whether the pair of rows w and h, w's nearest, has contracts left and was asked about.
fn is_settled(left: &[u64], places: &[u64], w: usize, h: usize) -> bool
    requires { (most_positions ≤ length left.now) × (places_size ≤ length places.now) × (w < most_positions) × (h < most_positions) }
    ensures { result ≡ (ltb 0 (nth left.now w) && ltb 0 (nth left.now h) && ltb (nth places.now (spread_column + w)) none) }
{
    both_left(left, w, h) & (places[SPREADS + w] < NONE)
}

// Tree and places are written and stay two lists: in a struct each method would lend it to lend them on (d).
impl RowsNow<'_> {
    // Row w at the start.
    fn first_standing(&self, w: usize) -> Standing
        requires { w < self.now.file.layout.positions }
        ensures { Kept (account_in self.now.file) self.now.left.now w result }
    {
        if self.table[w] % 256 == 1 {
            return self.search(w, self.table[UP + w], self.table[DOWN + w]);
        }
        Standing {
            rank: IDLE,
            spread: 0,
            up: 0,
            down: 0,
        }
    }

    // Row w at the start, unless it waits.
    fn begin_row(&self, tree: &mut [u64], places: &mut [u64], w: usize)
        requires { BeginAsked self.now tree.old places.old w }
        ensures { Begun (account_in self.now.file) self.now.left.now self.now.table.now w tree.new places.new }
    {
        if NONE < tree[self.file.layout.positions + w] {
            return;
        }
        let t = self.first_standing(w);
        put_places(places, w, t);
        tree[self.file.layout.positions + w] = t.rank;
    }

    // The row after row w in line waits.
    fn mark_next(&self, tree: &mut [u64], places: &[u64], w: usize)
        requires { NextAsked self.now tree.old places.now w }
        ensures { Leaves (account_in self.now.file) self.now.left.now self.now.table.now (w + 1) most_positions tree.new places.now }
    {
        let u = self.table[LINES + w];
        if 0 < u {
            tree[self.file.layout.positions + (u as usize)] = IDLE;
        }
    }

    // The rows at the start.
    pub fn begin_rows(&self, tree: &mut [u64], places: &mut [u64])
        requires { BeginAllAsked self.now tree.old places.old }
        ensures { Standings (account_in self.now.file) self.now.left.now self.now.table.now tree.new places.new }
    {
        for w in 0..self.file.layout.positions {
            self.begin_row(tree, places, w);
            self.mark_next(tree, places, w);
        }
        fill(tree, self.file.layout.positions);
    }

    // Row w ranked from the places of row v, which is row w itself or the one before it in line. Where the tree is not to be made
    // right above it no pair is asked about either.
    fn rank_row(&self, tree: &mut [u64], places: &mut [u64], v: usize, w: usize, climb: bool)
        requires { RankAsked self.now tree.old places.old v w climb }
        ensures { RowPut (account_in self.now.file) self.now.left.now self.now.table.now tree.old tree.new places.new w (nth places.old v) (nth places.old (down_column + v)) climb }
    {
        let t = self.look(w, places[v], places[DOWN_PLACES + v], climb);
        put_places(places, w, t);
        put_leaf(tree, self.file.layout.positions, w, t.rank, climb);
    }

    // Row w, whose rank is stale, looked at again; if it is spent the next row in its line takes its place.
    fn renew(&self, tree: &mut [u64], places: &mut [u64], w: usize, climb: bool)
        requires { RenewAsked self.now tree.old places.old w climb }
        ensures { Renewed (account_in self.now.file) self.now.left.now self.now.table.now tree.old tree.new places.new w × (climb ≡ true → Tree self.now.file.layout.positions tree.new) }
    {
        if 0 < self.left[w] {
            self.rank_row(tree, places, w, w, climb);
            return;
        }
        put_leaf(tree, self.file.layout.positions, w, NONE, climb);
        let u = self.table[LINES + w];
        if 0 < u {
            self.rank_row(tree, places, w, u as usize, climb);
        }
    }

    // Row w renewed if it is stale.
    fn look_at(&self, tree: &mut [u64], places: &mut [u64], w: usize)
        requires { LookAsked self.now tree.old places.old w }
        ensures { Looked (account_in self.now.file) self.now.left.now self.now.table.now tree.old tree.new places.new w }
    {
        let r = tree[self.file.layout.positions + w];
        if NONE <= r {
            return;
        }
        let h = (r % 256) as usize;
        if both_left(self.left, w, h) {
            return;
        }
        self.renew(tree, places, w, false);
    }

    // Every stale row renewed, and the tree filled anew. The least is row w's and stale.
    fn renew_all(&self, tree: &mut [u64], places: &mut [u64], w: usize)
        requires { StaleAsked self.now tree.old places.old w }
        ensures { Raised (account_in self.now.file) self.now.left.now self.now.table.now tree.old tree.new places.new }
    {
        for v in 0..self.file.layout.positions {
            self.look_at(tree, places, v);
        }
        fill(tree, self.file.layout.positions);
    }

    // The least is row w's and stale: that row renewed, or after eight times in a row all of them.
    fn renew_some(&self, tree: &mut [u64], places: &mut [u64], w: usize, times: u32)
        requires { StaleAsked self.now tree.old places.old w }
        ensures { Raised (account_in self.now.file) self.now.left.now self.now.table.now tree.old tree.new places.new }
    {
        if times == 8 {
            self.renew_all(tree, places, w);
            return;
        }
        self.renew(tree, places, w, true);
    }

    // The least, of rows w and h, looked at again: asked about where both rows have contracts left, else renewed.
    fn look_at_least(&self, tree: &mut [u64], places: &mut [u64], w: usize, h: usize, times: u32)
        requires { LeastAsked self.now tree.old places.old w h }
        ensures { Nearer (account_in self.now.file) self.now.left.now self.now.table.now tree.old places.old tree.new places.new }
    {
        if both_left(self.left, w, h) {
            self.rank_row(tree, places, w, w, true);
            return;
        }
        self.renew_some(tree, places, w, times);
    }

    // The least rank of all rows. A rank only rises while contracts fall, so that a stale leaf, or one whose pair was not asked
    // about, is a lower bound: the least is looked at again until it is settled.
    pub fn best_rank(&self, tree: &mut [u64], places: &mut [u64]) -> u64
        requires { RowsAsked self.now tree.old places.old }
        ensures { BestRank (account_in self.now.file) self.now.left.now self.now.table.now tree.new places.new result }
    {
        let mut r = tree[1];
        let mut times: u32 = 0;
        while r < NONE {
            let w = (r / 256 % 256) as usize;
            let h = (r % 256) as usize;
            if is_settled(self.left, places, w, h) {
                return r;
            }
            self.look_at_least(tree, places, w, h, times);
            times = (times + 1) % 9;
            r = tree[1];
        }
        r
    }
}
