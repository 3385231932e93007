// The mark of a row, made once, and what keys have of it.
ghost use Rattle.std.specs.Prelude.{◌≤◌, cond, ◌≡◌};
ghost use Rattle.lanes.specs.Keys.{InRange, barrier_family, family, last};
ghost use Rattle.lanes.specs.Marks.{mark_from, mark_group, mark_of, mark_place, mark_top, role_of, side_role};
ghost use Rattle.rules.specs.Pairs.{may_be_paired};

use crate::UP;
use position::quantities::normalised;
use rules::{Barrier, Position, Side};

// What stands for no key, no rank and no distance. A number and no Option: the tree is of numbers, and `LeastKey` says it (a).
pub const NONE: u64 = 1_152_921_504_606_846_976;

// Where the down lane counts from: a number, as keys are (a: `down_key`).
pub const LAST: u64 = 281_474_976_710_656;

// Families and roles are numbers: a mark has them in one number, `Marks.mark_of` (a).
fn barrier_family(b: Barrier) -> u64
    ensures { result ≡ barrier_family b }
{
    match b {
        Barrier::NoBarrier => 0,
        Barrier::UpIn(_) | Barrier::DownIn(_) => 3,
        Barrier::UpOut(_) => 1,
        Barrier::DownOut(_) => 2,
    }
}

// No barrier, up-and-out, down-and-out, or knock-ins, which pair with identical rows only.
fn family_of(p: Position) -> u64
    ensures { (result ≡ family p) × (result ≤ 3) }
{
    barrier_family(normalised(p).barrier)
}

fn held_role(fits: bool) -> u64
    ensures { result ≡ cond fits 0 2 }
{
    if fits { 0 } else { 2 }
}

fn side_role(fits: bool, side: Side) -> u64
    ensures { result ≡ side_role fits side }
{
    match side {
        Side::Held => held_role(fits),
        Side::Written => 1,
    }
}

fn may_be_paired(p: Position) -> bool
    ensures { result ≡ may_be_paired p }
{
    let flags = p.flags;
    (flags.european | flags.beforeAnnex) & !flags.knockedOut
}

// Of a row that may be paired: 0 for a held one that fits the lanes, 1 for a written one. 2 for all others.
fn role_of(fits: bool, p: Position) -> u64
    ensures { (result ≡ role_of fits p) × (result ≤ 2) }
{
    if may_be_paired(p) {
        return side_role(fits, p.side);
    }
    2
}

// The mark of a row: series, family, strike and role in one number.
pub fn mark_of(fits: bool, p: Position) -> u64
    requires { InRange p }
    ensures { result ≡ mark_of fits p }
{
    let group = ((p.series as u64) * 4 + family_of(p)) * 1_099_511_627_776;
    group + (p.terms.pe as u64) * 256 + role_of(fits, p)
}

pub fn mark_place(x: u64) -> u64
    ensures { result ≡ mark_place x }
{
    x / 256 * 256
}

// The place of a mark as the lane counts it. A lane is the column of its links, `up_lane` or `down_lane` (a: `Marks.mark_from`).
pub fn mark_from(o: usize, x: u64) -> u64
    requires { x ≤ last }
    ensures { result ≡ mark_from o x }
{
    if o == UP {
        return mark_place(x);
    }
    LAST - mark_place(x)
}

fn mark_group(x: u64) -> u64
    ensures { result ≡ mark_group x }
{
    x / 1_099_511_627_776 * 1_099_511_627_776
}

// Where the keys end that may pair with a row of this mark.
pub fn mark_top(o: usize, x: u64) -> u64
    requires { x ≤ last }
    ensures { result ≡ mark_top o x }
{
    if x / 1_099_511_627_776 % 4 == 3 {
        if o == UP {
            return mark_place(x) + 256;
        }
        return 0;
    }
    if o == UP {
        return mark_group(x) + 1_099_511_627_776;
    }
    LAST + 256 - mark_group(x)
}
