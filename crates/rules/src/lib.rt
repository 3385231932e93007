// The types of documents 01 and 02, their sizes and limits, and what a row means. Its specs/ are the definitions, its proofs/
// the theorems about them.
#![tactic(auto)]

ghost use Rattle.std.specs.Prelude.{◌≡◌, Some};
ghost use Rattle.rules.specs.Output.{refusal_text};

use std::fmt;

pub mod values;

// Sizes and limits as code has them. Contracts have the same by the same names (`trailer_width` and so on, in specs/File.antt,
// Limits.antt and Lines.antt); where the two differ a proof fails.

// The bytes of the trailer.
pub const TRAILER_WIDTH: usize = 12;

// The bytes of a series row.
pub const SERIES_WIDTH: usize = 24;

// The bytes of a position row.
pub const POSITION_WIDTH: usize = 32;

// The most bytes of a file.
pub const MOST_BYTES: usize = 65_536;

// The most series of a file, s.
pub const MOST_SERIES: usize = 32;

// The most positions of a file, p.
pub const MOST_POSITIONS: usize = 256;

// The entries of a list that is long enough for every account: as many lines fit into them as an account has at most.
pub const MOST_LINES: usize = 2 * MOST_POSITIONS;

// A series' type, call or put. (Document 01's "type".)
#[derive(Clone, Copy)]
pub enum OptionType {
    Call,
    Put,
}

// Whether the client holds the option or has written it.
#[derive(Clone, Copy)]
pub enum Side {
    Held,
    Written,
}

// A position's one barrier with its price in ticks.
#[derive(Clone, Copy)]
pub enum Barrier {
    NoBarrier,
    UpIn(u32),
    DownIn(u32),
    UpOut(u32),
    DownOut(u32),
}

// A position's limiter, PB, in ticks.
// An enum of its own and no Option: document 01 names this form, "Position struct holds a barrier enum and a limiter enum" (a).
#[derive(Clone, Copy)]
pub enum Limiter {
    NoLimiter,
    At(u32),
}

// A series row, number by number, as it stands in the file: its type is a number, since a wrong one is refused later (a:
// `wrong_series_type` speaks of it).
#[derive(Clone, Copy)]
pub struct SeriesRow {
    pub pv: u32,
    pub fa: u32,
    pub fb: u32,
    pub f3: u32,
    pub m: u32,
    pub option: u32,
    pub spare: u32,
}

// A position row, number by number, as it stands in the file: side, kind and flags are numbers, since wrong ones are refused
// later (a: `wrong_terms` speaks of them).
#[derive(Clone, Copy)]
pub struct PositionRow {
    pub series: u32,
    pub side: u32,
    pub kind: u32,
    pub flags: u32,
    pub blocked: u32,
    pub q: u32,
    pub pe: u32,
    pub pb: u32,
    pub price: u32,
    pub reb: u32,
    pub premium: u32,
}

// What a series row means.
#[derive(Clone, Copy)]
pub struct Series {
    pub pv: u32,
    pub fa: u32,
    pub fb: u32,
    pub f3: u32,
    pub m: u32,
    pub option: OptionType,
}

// What a pair compares, and what a margin or a payment is worked out from: strike, limiter, barrier and rebate.
#[derive(Clone, Copy)]
pub struct Terms {
    pub pe: u32,
    pub limiter: Limiter,
    pub barrier: Barrier,
    pub reb: u32,
}

// A position row's flags, 1, 2, 4, 8 and 16: already knocked in, has a limiter, European, opened before the annex, knocked
// out.
#[derive(Clone, Copy)]
pub struct Flags {
    pub knockedIn: bool,
    pub limited: bool,
    pub european: bool,
    pub beforeAnnex: bool,
    pub knockedOut: bool,
}

// What a position row means. Its terms are as they stand in the row: flag 1 is not applied to them yet. Of its contracts, q,
// so many are blocked as collateral (document 02, request 9).
#[derive(Clone, Copy)]
pub struct Position {
    pub series: u32,
    pub side: Side,
    pub terms: Terms,
    pub flags: Flags,
    pub q: u32,
    pub blocked: u32,
    pub premium: u32,
}

// Where a file's tables stand: how many series and positions, at which byte the first series row and the first position
// row begin, and how many bytes a position row has.
#[derive(Clone, Copy)]
pub struct Layout {
    pub series: usize,
    pub positions: usize,
    pub seriesStart: usize,
    pub positionsStart: usize,
    pub width: usize,
}

// Why a file or a call is turned back, each with its number: those of document 01's table, then those of document 02's
// requests. Document 01's 3, for a file without positions, is withdrawn (document 02, request 1).
#[derive(Clone, Copy, Debug, PartialEq, Eq)]
pub enum Refusal {
    FileSize = 1,
    Trailer = 2,
    Distance = 4,
    SeriesRange = 5,
    SeriesType = 6,
    PositionTerms = 7,
    PositionRange = 8,
    LimiterPrice = 9,
    BarrierPrice = 10,
    BarrierSide = 11,
    ListTooShort = 12,
    RowAskedFor = 13,
    FactorsAskedFor = 14,
    SeriesAskedFor = 16,
    DayPrices = 17,
    NotFirstPairs = 18,
    AboveCount = 19,
    LoadAskedFor = 20,
}

// A refusal with its row, counted from 0 in its own table, 0 where it is no row's.
#[derive(Clone, Copy, Debug, PartialEq, Eq)]
pub struct Refused {
    pub why: Refusal,
    pub row: usize,
}

// A refusal as the programs print it: number and row.
impl fmt::Display for Refused {
    ghost output = { λ refused. Some (refusal_text refused) };

    fn fmt<W: fmt::Write>(&self, f: &mut fmt::Formatter<W>) -> fmt::Result {
        write!(f, "{} {}", self.why as u32, self.row)
    }
}

// A refusal that is no row's.
impl From<Refusal> for Refused {
    ghost from_gives = { λ why e. e ≡ record { why = why; row = 0 } };

    fn from(why: Refusal) -> Refused {
        Refused { why, row: 0 }
    }
}

// How many lines there are, and the sum of their amounts; of an account's margin, the total.
#[derive(Clone, Copy)]
pub struct Tally {
    pub count: usize,
    pub total: u64,
}

// An entry of the caller's list, document 01's five whole numbers: 1 for a pair or 2 for a row left, then that line's
// fields in order. A C program lends it as a struct of five 64-bit numbers, so that the kind is a number too (a: C).
#[repr(C)]
#[derive(Clone, Copy, Debug, PartialEq, Eq)]
pub struct Line {
    pub kind: u64,
    pub secondNumber: u64,
    pub thirdNumber: u64,
    pub fourthNumber: u64,
    pub fifthNumber: u64,
}

// A day of a series: which series row, and its high, low and close in ticks. Any numbers may be handed over.
#[derive(Clone, Copy)]
pub struct Day {
    pub series: u64,
    pub high: u64,
    pub low: u64,
    pub close: u64,
}
