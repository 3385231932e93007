// The operations offered outside, as a C program calls them. `library/prove.sh` writes the archive that a client links; the
// header is include/serpentgleam.h.
#![tactic(auto)]

ghost use Rattle.std.specs.Prelude.{length, ◌≡◌};
ghost use Rattle.load.specs.Load.{buffer_after, load_answer};
ghost use Rattle.rules.specs.Day.{day_answer, file_after};
ghost use Rattle.rules.specs.Instalments.{amount_so_far, list_paired, pair_answer};
ghost use Rattle.rules.specs.Lines.{list_after, margin_answer, premium_answer};
ghost use Rattle.rules.specs.OnePosition.{amount_answer, signed_answer};
ghost use Rattle.rules.specs.TakingApart.{apart_answer, list_apart};
ghost use Rattle.serpentgleam.specs.DayNumbers.{day_numbers, day_of};
ghost use Rattle.serpentgleam.specs.FactorNumbers.{FactorsTold, factor_numbers};
ghost use Rattle.serpentgleam.specs.InstalmentNumbers.{told_numbers};
ghost use Rattle.serpentgleam.specs.MarginNumbers.{answer_numbers, margin_numbers};

use day::apply_day;
use factors::factors;
use factors::formulas::Factors;
use instalments::{
    CallLines, amount_after, lines_after, lines_compared, lines_kept, next_pairs, taken_apart,
};
use lent::{agree, write_entries};
use lines::{MOST_NUMBERS, MOST_PAIR_NUMBERS};
use lines_and_total::{line_count, premium_answer, settle};
use load::load;
use position::amount::amount_for_row;
use position::answer::signed;
use refusals::refusal_number;
use rules::{Day, Line, Refusal, Refused, Tally};

// A file's margin as numbers, the header's `serpentgleam_result`: 0, 0, the line count and the total in centavos; or the
// refusal's number, its row, 0 and 0.
#[repr(C)]
#[derive(Clone, Copy)]
pub struct Margin {
    pub refusal: u64,
    pub row: u64,
    pub lines: u64,
    pub total: u64,
}

// The numbers of a refusal are its own and its row's; an answer has two zeros in their place.
fn numbers_of(answer: Result<Tally, Refused>) -> Margin
    ensures { result ≡ margin_numbers answer }
{
    match answer {
        Ok(margin) => Margin {
            refusal: 0,
            row: 0,
            lines: margin.count as u64,
            total: margin.total,
        },
        Err(refused) => Margin {
            refusal: refusal_number(refused.why) as u64,
            row: refused.row as u64,
            lines: 0,
            total: 0,
        },
    }
}

// A number asked of a file, how many pairs a call made or left, a day applied to it or the bytes of a load, the header's
// `serpentgleam_answer`: 0, 0 and the number, 0 for a day; or the refusal's number, its row and 0.
#[repr(C)]
#[derive(Clone, Copy)]
pub struct Answer {
    pub refusal: u64,
    pub row: u64,
    pub value: u64,
}

fn answer_of(answer: Result<u64, Refused>) -> Answer
    ensures { result ≡ answer_numbers answer }
{
    match answer {
        Ok(value) => Answer {
            refusal: 0,
            row: 0,
            value,
        },
        Err(refused) => Answer {
            refusal: refusal_number(refused.why) as u64,
            row: refused.row as u64,
            value: 0,
        },
    }
}

// What is told of a call with lines: 18 where the list does not begin with its lines.
fn told(ready: Result<CallLines, Refused>, same: bool) -> Answer
    ensures { result ≡ told_numbers ready same }
{
    match ready {
        Ok(_) if !same => answer_of(Err(Refusal::NotFirstPairs.into())),
        _ => answer_of(ready.map(|lines| lines.value)),
    }
}

// What is told of a call that takes pairs apart.
fn lines_left(answer: Result<usize, Refused>) -> Answer
    ensures { result ≡ answer_numbers answer }
{
    answer_of(answer.map(|left| left as u64))
}

// Factors as numbers, the header's `struct serpentgleam_factors`: 0, 0, fa and fb in millionths; or the refusal's number, its
// row, 0 and 0.
#[repr(C)]
#[derive(Clone, Copy)]
pub struct FactorNumbers {
    pub refusal: u64,
    pub row: u64,
    pub fa: u64,
    pub fb: u64,
}

fn factor_numbers(answer: Result<Factors, Refused>) -> FactorNumbers
    ensures { result ≡ factor_numbers answer }
{
    match answer {
        Ok(told) => FactorNumbers {
            refusal: 0,
            row: 0,
            fa: told.fa,
            fb: told.fb,
        },
        Err(refused) => FactorNumbers {
            refusal: refusal_number(refused.why) as u64,
            row: refused.row as u64,
            fa: 0,
            fb: 0,
        },
    }
}

// A file's margin, and its lines in the caller's list.
#[unsafe(no_mangle)]
pub extern "C" fn serpentgleam_margin(file: &[u8], lines: &mut [Line]) -> Margin
    ensures numbers { result ≡ margin_numbers (margin_answer file.now (length lines.old)) }
    ensures list { lines.new ≡ list_after file.now lines.old }
{
    let mut numbers = [0u64; MOST_NUMBERS];
    let answer = settle(file, lines.len(), &mut numbers);
    let n = line_count(answer);
    write_entries(lines, 0, n, &numbers);
    numbers_of(answer)
}

// The amount in centavos of position row `row` of the file, a multiple of 100 where the row is written and the exact premium
// where it is held, or minus document 01's refusal number. Any bytes and any row may be handed over.
#[unsafe(no_mangle)]
pub extern "C" fn serpentgleam_position_amount(file: &[u8], row: u64) -> i64
    ensures { result ≡ signed_answer (amount_answer file.now row) }
{
    signed(amount_for_row(file, row))
}

// The unsettled premiums of all held rows of the file, in centavos and exact, or its refusal. Any bytes may be handed over.
#[unsafe(no_mangle)]
pub extern "C" fn serpentgleam_premiums(file: &[u8]) -> Answer
    ensures { result ≡ answer_numbers (premium_answer file.now) }
{
    answer_of(premium_answer(file))
}

// fa and fb of a code, 0 to 3, and a number of days, 0 to 1,800, or the refusal. Any two numbers may be handed over.
#[unsafe(no_mangle)]
pub extern "C" fn serpentgleam_factors(code: u64, days: u64) -> FactorNumbers
    ensures { FactorsTold code days result }
{
    factor_numbers(factors(code, days))
}

// The file brought up to date with the day of a series: the flags of the series' rows and its PV in the lent bytes, or the
// refusal, on which they keep their content. Any bytes and any numbers may be handed over.
#[unsafe(no_mangle)]
pub extern "C" fn serpentgleam_day(
    file: &mut [u8],
    series: u64,
    high: u64,
    low: u64,
    close: u64,
) -> Answer
    ensures numbers { result ≡ day_numbers (day_answer file.old (day_of series high low close)) }
    ensures bytes { file.new ≡ file_after file.old (day_of series high low close) }
{
    let d = Day {
        series,
        high,
        low,
        close,
    };
    answer_of(apply_day(file, d).map(|()| 0))
}

// The next pairs of the file, as many as allowed, after the `count` pair lines that the caller's list begins with: how many
// were made, and their lines in the list; or the refusal, on which the list keeps its content. Any bytes, any list and any
// numbers may be handed over.
#[unsafe(no_mangle)]
pub extern "C" fn serpentgleam_pair(
    file: &[u8],
    lines: &mut [Line],
    count: u64,
    allowance: u64,
) -> Answer
    ensures numbers { result ≡ answer_numbers (pair_answer file.now lines.old count allowance) }
    ensures list { lines.new ≡ list_paired file.now lines.old count allowance }
{
    let mut numbers = [0u64; MOST_PAIR_NUMBERS];
    let ready = next_pairs(file, lines.len(), count, allowance, &mut numbers);
    let first = lines_compared(ready);
    let same = agree(lines, first, &numbers);
    let last = lines_after(ready, same);
    write_entries(lines, first, last, &numbers);
    told(ready, same)
}

// The amount of the file after the `count` pairs whose lines the caller's list begins with, or the refusal. The list is only
// read. Any bytes, any list and any count may be handed over.
#[unsafe(no_mangle)]
pub extern "C" fn serpentgleam_amount_so_far(file: &[u8], lines: &[Line], count: u64) -> Answer
    ensures { result ≡ answer_numbers (amount_so_far file.now lines.now count) }
{
    let mut numbers = [0u64; MOST_NUMBERS];
    let ready = amount_after(file, lines.len(), count, &mut numbers);
    let first = lines_compared(ready);
    let same = agree(lines, first, &numbers);
    told(ready, same)
}

// The latest `k` of the `count` pair lines that the caller's list begins with are taken apart: how many are left, and zeros in
// the list in the place of those removed; or the refusal, on which the list keeps its content. Any bytes, any list and any
// numbers may be handed over.
#[unsafe(no_mangle)]
pub extern "C" fn serpentgleam_take_apart(
    file: &[u8],
    lines: &mut [Line],
    count: u64,
    k: u64,
) -> Answer
    ensures numbers { result ≡ answer_numbers (apart_answer file.now lines.old count k) }
    ensures list { lines.new ≡ list_apart file.now lines.old count k }
{
    let mut numbers = [0u64; MOST_PAIR_NUMBERS];
    let ready = next_pairs(file, lines.len(), count, 0, &mut numbers);
    let n = lines_compared(ready);
    let same = agree(lines, n, &numbers);
    let answer = taken_apart(ready, same, k);
    let kept = lines_kept(answer, n);
    let zeros = [0u64; MOST_PAIR_NUMBERS];
    write_entries(lines, kept, n, &zeros);
    lines_left(answer)
}

// An account for the bench, of a seed and `p` rows, at the beginning of the lent buffer: the bytes of its file, or the refusal,
// on which the buffer keeps its content. Bytes after the file stay. Any numbers and any buffer may be handed over.
#[unsafe(no_mangle)]
pub extern "C" fn serpentgleam_load(seed: u64, p: u64, buffer: &mut [u8]) -> Answer
    ensures numbers { result ≡ answer_numbers (load_answer seed p (length buffer.old)) }
    ensures bytes { buffer.new ≡ buffer_after seed p buffer.old }
{
    answer_of(load(seed, p, buffer))
}
