// The search of a written row for its nearest pair, from its places in both lanes, which move along the links and never
// back.
ghost use Rattle.std.specs.Prelude.{◌+◌, ◌≤◌, ◌<◌, true, ◌≡◌};
ghost use Rattle.account.specs.Accepted.{account_in};
ghost use Rattle.lanes.specs.Marks.{mark_from, mark_top};
ghost use Rattle.pairing.specs.Cursors.{Answer, Answered, Asked, DistanceAsked, Found, Places, SearchAsked, SkipAsked, Skipped, distance_to, rank_from};
ghost use Rattle.rules.specs.Limits.{most_positions};

use crate::rows_now::RowsNow;
use crate::{Standing, Written};
use account::accepted::AcceptedFile;
use account::lookup::{position_at, series_of_position};
use lanes::keys::{NONE, mark_from, mark_top};
use lanes::{DOWN, UNITS, UP};
use numbers::smaller;
use position::quantities::normalised;
use spreads::pair::charge_between;

// The leaf of a row that is not spent and has no rank: a number, as all leaves are (a: `Leaves`).
pub const IDLE: u64 = 1_152_921_504_606_846_977;

// What written row w is charged a contract beside held row h: below its unit margin exactly where they may pair.
fn charge_at(file: &AcceptedFile<'_>, w: Written, h: usize) -> u64
    requires { Asked file.now.bytes.now file.now.layout w h }
    ensures { Answered (account_in file.now) w.row h w.unit result }
{
    let held = position_at(file, h);
    let terms = w.terms;
    let series = w.series;
    charge_between(series, terms, normalised(held), w.unit)
}

// The distance of a cursor from the start of a row of mark x in lane o: strike difference and held row in one number.
fn distance_in(o: usize, x: u64, u: u64) -> u64
    requires { DistanceAsked o x u }
    ensures { result ≡ distance_to u (mark_from o x) (mark_top o x) }
{
    if u < mark_top(o, x) {
        return u - mark_from(o, x);
    }
    NONE
}

fn rank_from(w: usize, m: u64) -> u64
    requires { (w < most_positions) × (m ≤ 4_000_000_000_000) }
    ensures { result ≡ rank_from w m }
{
    m / 256 * 65_536 + (w as u64) * 256 + m % 256
}

impl RowsNow<'_> {
    // From a cursor on, the first row with contracts left.
    fn skip_spent(&self, o: usize, w: usize, first: u64, top: u64) -> u64
        requires { SkipAsked self.now o w first top }
        ensures { Skipped (account_in self.now.file) self.now.left.now o w first result }
    {
        let mut u = first;
        while u < top {
            let h = (u % 256) as usize;
            if 0 < self.left[h] {
                return u;
            }
            u = self.table[o + h];
        }
        u
    }

    // The nearest pair of a written row from its cursors on: of the nearer row with contracts left the question is asked, and
    // where the answer is no its cursor moves on.
    fn nearest(&self, w: Written, first: u64, second: u64) -> Standing
        requires { SearchAsked self.now w first second }
        ensures { Found (account_in self.now.file) self.now.left.now w.row first second result × Answer result }
    {
        let row = w.row;
        let mark = self.table[row];
        let mut up = first;
        let mut down = second;
        loop {
            up = self.skip_spent(UP, row, up, mark_top(UP, mark));
            down = self.skip_spent(DOWN, row, down, mark_top(DOWN, mark));
            let x = distance_in(UP, mark, up);
            let y = distance_in(DOWN, mark, down);
            let m = smaller(x, y);
            if NONE <= m {
                return Standing {
                    rank: IDLE,
                    spread: 0,
                    up,
                    down,
                };
            }
            let h = (m % 256) as usize;
            let spread = charge_at(&self.file, w, h);
            if spread < w.unit {
                return Standing {
                    rank: rank_from(row, m),
                    spread,
                    up,
                    down,
                };
            }
            if x <= y {
                up = self.table[UP + h];
                continue;
            }
            down = self.table[DOWN + h];
        }
    }

    // The same of row w, which is read once.
    pub fn search(&self, w: usize, up: u64, down: u64) -> Standing
        requires { (w < self.now.file.layout.positions) × Places (account_in self.now.file) self.now.left.now w up down }
        ensures { Found (account_in self.now.file) self.now.left.now w up down result × Answer result }
    {
        let p = position_at(&self.file, w);
        let written = Written {
            row: w,
            terms: normalised(p),
            series: series_of_position(&self.file, p),
            unit: self.table[UNITS + w],
        };
        self.nearest(written, up, down)
    }

    // The rank that row w's cursors give once they stand at rows with contracts left: no pair is asked about.
    fn lower_bound(&self, w: usize, first: u64, second: u64) -> Standing
        requires { (w < self.now.file.layout.positions) × Places (account_in self.now.file) self.now.left.now w first second }
        ensures { Found (account_in self.now.file) self.now.left.now w first second result }
    {
        let mark = self.table[w];
        let up = self.skip_spent(UP, w, first, mark_top(UP, mark));
        let down = self.skip_spent(DOWN, w, second, mark_top(DOWN, mark));
        let x = distance_in(UP, mark, up);
        let y = distance_in(DOWN, mark, down);
        let m = smaller(x, y);
        if NONE <= m {
            return Standing {
                rank: IDLE,
                spread: 0,
                up,
                down,
            };
        }
        Standing {
            rank: rank_from(w, m),
            spread: NONE,
            up,
            down,
        }
    }

    // Row w looked at from its cursors on: its nearest pair, or if it is not to ask a lower bound. `ask` is a flag that the
    // clause reads; a closure would say the same at each call (d).
    pub fn look(&self, w: usize, up: u64, down: u64, ask: bool) -> Standing
        requires { (w < self.now.file.layout.positions) × Places (account_in self.now.file) self.now.left.now w up down }
        ensures { Found (account_in self.now.file) self.now.left.now w up down result × (ask ≡ true → Answer result) }
    {
        if ask {
            return self.search(w, up, down);
        }
        self.lower_bound(w, up, down)
    }
}
