// The whole account: its lines as plain numbers, and its total.
#![tactic(auto)]

ghost use Rattle.std.specs.Prelude.{length, ◌≡◌};
ghost use Rattle.lines.specs.LineNumbers.{line_count, most_numbers};
ghost use Rattle.lines_and_total.specs.Settled.{Settled};
ghost use Rattle.rules.specs.Lines.{premium_answer};
ghost use Rattle.rules.specs.Output.{premiums_for};
ghost use Rattle.rules.specs.Refusals.{file_read};

use crate::listing::list_lines;
use crate::premium::premium_sum;
use account::accepted::AcceptedFile;
use account::lookup::accept;
use lines::entries_for;
use rules::{Refusal, Refused, Tally};

pub mod contracts;
pub mod left;
pub mod listing;
pub mod premium;

// How many of the first pairs asked for there are, and all lines.
#[derive(Clone, Copy)]
pub struct Listed {
    pub first: usize,
    pub lines: Tally,
}

// The account of an accepted file, or refusal 12 where the caller's list has fewer entries than it needs.
fn settle_accepted(
    file: &AcceptedFile<'_>,
    room: usize,
    numbers: &mut [u64],
) -> Result<Tally, Refused>
    requires { length numbers.old ≡ most_numbers }
    ensures { Settled file.now.bytes.now room numbers.new result }
{
    if room < entries_for(file.layout.positions) {
        return Err(Refusal::ListTooShort.into());
    }
    let listed = list_lines(file, file.layout.positions as u64, numbers);
    let t = listed.lines;
    let total = t.total + premium_sum(file);
    Ok(Tally {
        count: t.count,
        total,
    })
}

// The lines and the total of a file, for a caller's list of `room` entries, or the refusal: the reading's first, then 12.
pub fn settle(file: &[u8], room: usize, numbers: &mut [u64]) -> Result<Tally, Refused>
    requires { length numbers.old ≡ most_numbers }
    ensures { Settled file.now room numbers.new result }
{
    let accepted = accept(file)?;
    settle_accepted(&accepted, room, numbers)
}

// How many lines an answer has.
pub fn line_count(answer: Result<Tally, Refused>) -> usize
    ensures { result ≡ line_count answer }
{
    answer.map_or(0, |margin| margin.count)
}

// The premiums of a file's held rows, or its refusal.
pub fn premium_answer(file: &[u8]) -> Result<u64, Refused>
    ensures { result ≡ premium_answer file.now }
{
    let accepted = accept(file)?;
    Ok(premium_sum(&accepted))
}

// The premiums of a file's held rows, 0 where it is refused.
pub fn premium_total(file: &[u8]) -> u64
    ensures { result ≡ premiums_for file.now (file_read file.now) }
{
    premium_answer(file).unwrap_or(0)
}
