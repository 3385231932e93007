// The rows of an account for the bench, each with the state after its draws.
ghost use Rattle.std.specs.Prelude.{◌≤◌, ◌<◌, ◌≡◌};
ghost use Rattle.load.specs.Load.{modulus};
ghost use Rattle.load.specs.Rows.{BarrierIs, PositionIs, RowAsked, SeriesIs, barrier_by};

use crate::draws::next_state;
use rules::{PositionRow, SeriesRow};

// A row that was drawn, or what is drawn for one, and the state after its draws.
#[derive(Clone, Copy)]
pub struct WithState<R> {
    pub row: R,
    pub state: u64,
}

// The price of a barrier and the rebate, 0 and 0 without one.
#[derive(Clone, Copy)]
pub struct BarrierDrawn {
    pub price: u32,
    pub reb: u32,
}

// The series drawn from a seed.
pub fn series_drawn(seed: u64) -> WithState<SeriesRow>
    requires { seed < modulus }
    ensures { SeriesIs seed result }
{
    let t1 = next_state(seed);
    let t2 = next_state(t1);
    let t3 = next_state(t2);
    let t4 = next_state(t3);
    let t5 = next_state(t4);
    let row = SeriesRow {
        pv: (1_000 + t1 % 9_000) as u32,
        fa: (1_000_000 + t2 % 500_000) as u32,
        fb: (500_000 + t3 % 500_001) as u32,
        f3: 50_000,
        m: (1 + t4 % 10) as u32,
        option: (t5 % 2) as u32,
        spare: 0,
    };
    WithState { row, state: t5 }
}

// The price of a barrier of a kind above 0, by the state of its draw.
fn barrier_drawn(kind: u64, pv: u32, state: u64) -> u32
    requires { (1 ≤ kind) × RowAsked pv state }
    ensures { result ≡ barrier_by kind pv state }
{
    if (kind == 1) | (kind == 3) {
        return pv + 1 + (state % 1_000) as u32;
    }
    1 + (state % u64::from(pv - 1)) as u32
}

// Barrier and rebate of a row of this kind, from the state after its first four draws. Kind 0 draws neither.
fn barrier_and_rebate(kind: u64, pv: u32, t: u64) -> WithState<BarrierDrawn>
    requires { RowAsked pv t }
    ensures { BarrierIs kind pv t result }
{
    if kind == 0 {
        return WithState {
            row: BarrierDrawn { price: 0, reb: 0 },
            state: t,
        };
    }
    let t1 = next_state(t);
    let t2 = next_state(t1);
    let row = BarrierDrawn {
        price: barrier_drawn(kind, pv, t1),
        reb: (t2 % 100) as u32,
    };
    WithState { row, state: t2 }
}

// A row drawn from the state t, for the series with this PV.
pub fn position_drawn(pv: u32, t: u64) -> WithState<PositionRow>
    requires { RowAsked pv t }
    ensures { PositionIs pv t result }
{
    let t1 = next_state(t);
    let t2 = next_state(t1);
    let t3 = next_state(t2);
    let t4 = next_state(t3);
    let kind = t2 % 5;
    let barrier = barrier_and_rebate(kind, pv, t4);
    let row = PositionRow {
        series: 0,
        side: (t1 % 2) as u32,
        kind: kind as u32,
        flags: 4,
        blocked: 0,
        q: (1 + t3 % 100) as u32,
        pe: (1 + t4 % 10_000) as u32,
        pb: 0,
        price: barrier.row.price,
        reb: barrier.row.reb,
        premium: 0,
    };
    WithState {
        row,
        state: barrier.state,
    }
}
