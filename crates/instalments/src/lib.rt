// Pairing in instalments (document 02, request 7) and taking pairs apart (request 8): what a call works out before its lines
// are compared with the caller's list, and what follows from the comparison.
#![tactic(auto)]

ghost use Rattle.std.specs.Prelude.{length, ◌≡◌};
ghost use Rattle.instalments.specs.Ready.{AmountReady, PairsReady, apart_by, end, kept_of, start};
ghost use Rattle.lines.specs.LineNumbers.{most_numbers, most_pair_numbers};

use account::accepted::AcceptedFile;
use account::lookup::accept;
use lines::entries_for;
use lines_and_total::listing::{list_lines, list_pairs};
use lines_and_total::premium::premium_sum;
use rules::{Refusal, Refused};

// With how many lines the list must begin, with how many it begins after the call, and the number to be answered. Taking
// apart asks for no further pairs, and of the three numbers the first alone counts.
#[derive(Clone, Copy)]
pub struct CallLines {
    pub first: usize,
    pub last: usize,
    pub value: u64,
}

// The next pairs of an accepted file: 12 where the caller's list has fewer entries than it needs, 18 where there are fewer
// pairs than lines in it.
fn next_accepted(
    file: &AcceptedFile<'_>,
    room: usize,
    count: u64,
    allowance: u64,
    numbers: &mut [u64],
) -> Result<CallLines, Refused>
    requires { length numbers.old ≡ most_pair_numbers }
    ensures { PairsReady file.now.bytes.now room count allowance numbers.new result }
{
    if room < entries_for(file.layout.positions) {
        return Err(Refusal::ListTooShort.into());
    }
    let listed = list_pairs(file, count, allowance, numbers);
    let first = listed.first;
    if (first as u64) < count {
        return Err(Refusal::NotFirstPairs.into());
    }
    let pairs = listed.pairs;
    let made = pairs.count - first;
    Ok(CallLines {
        first,
        last: pairs.count,
        value: made as u64,
    })
}

// The first `count` pairs of a file and the next ones, as many as allowed, for a caller's list of `room` entries; or the
// refusal: the reading's first, then 12, then 18.
pub fn next_pairs(
    file: &[u8],
    room: usize,
    count: u64,
    allowance: u64,
    numbers: &mut [u64],
) -> Result<CallLines, Refused>
    requires { length numbers.old ≡ most_pair_numbers }
    ensures { PairsReady file.now room count allowance numbers.new result }
{
    let accepted = accept(file)?;
    next_accepted(&accepted, room, count, allowance, numbers)
}

// The amount of an accepted file after its first `count` pairs, or 12 or 18. It asks as `next_accepted` does, and answers
// another list: what they share are calls (d).
fn amount_accepted(
    file: &AcceptedFile<'_>,
    room: usize,
    count: u64,
    numbers: &mut [u64],
) -> Result<CallLines, Refused>
    requires { length numbers.old ≡ most_numbers }
    ensures { AmountReady file.now.bytes.now room count numbers.new result }
{
    if room < entries_for(file.layout.positions) {
        return Err(Refusal::ListTooShort.into());
    }
    let listed = list_lines(file, count, numbers);
    let pairs = listed.first;
    if (pairs as u64) < count {
        return Err(Refusal::NotFirstPairs.into());
    }
    let t = listed.lines;
    let amount = t.total + premium_sum(file);
    Ok(CallLines {
        first: pairs,
        last: pairs,
        value: amount,
    })
}

// The first `count` pairs of a file and the amount after them, or the refusal as for the next pairs.
pub fn amount_after(
    file: &[u8],
    room: usize,
    count: u64,
    numbers: &mut [u64],
) -> Result<CallLines, Refused>
    requires { length numbers.old ≡ most_numbers }
    ensures { AmountReady file.now room count numbers.new result }
{
    let accepted = accept(file)?;
    amount_accepted(&accepted, room, count, numbers)
}

// With how many lines the list must begin: none on a refusal.
pub fn lines_compared(ready: Result<CallLines, Refused>) -> usize
    ensures { result ≡ start ready }
{
    ready.map_or(0, |lines| lines.first)
}

// With how many lines the list begins after the call: where it does not begin with those that it must, none are written.
pub fn lines_after(ready: Result<CallLines, Refused>, same: bool) -> usize
    ensures { result ≡ end ready same }
{
    match ready {
        Ok(lines) if same => lines.last,
        Ok(lines) => lines.first,
        Err(_) => 0,
    }
}

// What taking apart the latest `k` of these lines answers: 18 where the list begins with others, then 19 where there are
// fewer.
pub fn taken_apart(ready: Result<CallLines, Refused>, same: bool, k: u64) -> Result<usize, Refused>
    ensures { result ≡ apart_by ready same k }
{
    let there = ready?.first as u64;
    if !same {
        return Err(Refusal::NotFirstPairs.into());
    }
    if there < k {
        return Err(Refusal::AboveCount.into());
    }
    let left = there - k;
    Ok(left as usize)
}

// How many of `n` lines stay: all on a refusal.
pub fn lines_kept(answer: Result<usize, Refused>, n: usize) -> usize
    ensures { result ≡ kept_of answer n }
{
    answer.unwrap_or(n)
}
