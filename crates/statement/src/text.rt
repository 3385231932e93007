// A file's margin as the text that document 01 shows.
ghost use Rattle.std.specs.Prelude.{◌+◌, ◌*◌, ◌≤◌, length};
ghost use Rattle.lines.specs.LineNumbers.{lines_from, numbers_per_line};
ghost use Rattle.rules.specs.Output.{left_text, line_text, lines_text, margin_text, pair_text, refused_text, totals_text};
ghost use Rattle.statement.specs.Puts.{Put};
ghost use Rattle.statement.specs.Sizes.{most_line_text, most_refused_text, most_text, most_totals_text};

use crate::words::{MOST_NUMBER_TEXT, put_number, put_word};
use lines::{MOST_NUMBERS, line_at};
use lines_and_total::{premium_total, settle};
use refusals::refusal_number;
use rules::{Line, MOST_LINES};

// The most bytes of a line: `most_line_text` in contracts, as the next two are `most_totals_text` and `most_text`.
const MOST_LINE_TEXT: usize = 5 + 4 * MOST_NUMBER_TEXT;

// The most bytes of premiums and total.
const MOST_TOTALS_TEXT: usize = 14 + 2 * MOST_NUMBER_TEXT;

// The most bytes of a whole text.
pub const MOST_TEXT: usize = MOST_LINE_TEXT * MOST_LINES + MOST_TOTALS_TEXT;

// A pair: written row, held row, contracts and amount.
fn put_pair_text(text: &mut [u8], at: usize, line: Line) -> usize
    requires { at + most_line_text ≤ length text.old }
    ensures { Put text.old text.new at result (pair_text line) × (result ≤ at + most_line_text) }
{
    let word = put_word(text, at, b"pair");
    let second = put_number(text, word, line.secondNumber);
    let third = put_number(text, second, line.thirdNumber);
    let fourth = put_number(text, third, line.fourthNumber);
    let fifth = put_number(text, fourth, line.fifthNumber);
    put_word(text, fifth, b"\n")
}

// A row left: row, contracts and amount.
fn put_left_text(text: &mut [u8], at: usize, line: Line) -> usize
    requires { at + most_line_text ≤ length text.old }
    ensures { Put text.old text.new at result (left_text line) × (result ≤ at + most_line_text) }
{
    let word = put_word(text, at, b"left");
    let second = put_number(text, word, line.secondNumber);
    let third = put_number(text, second, line.thirdNumber);
    let fourth = put_number(text, third, line.fourthNumber);
    put_word(text, fourth, b"\n")
}

// A line, by its kind.
fn put_line_text(text: &mut [u8], at: usize, line: Line) -> usize
    requires { at + most_line_text ≤ length text.old }
    ensures { Put text.old text.new at result (line_text line) × (result ≤ at + most_line_text) }
{
    if line.kind == 1 {
        return put_pair_text(text, at, line);
    }
    put_left_text(text, at, line)
}

// The first lines of the numbers, from the text's start.
fn put_lines_text(text: &mut [u8], numbers: &[u64], count: usize) -> usize
    requires { (numbers_per_line * count ≤ length numbers.now) × (most_line_text * count ≤ length text.old) }
    ensures { Put text.old text.new 0 result (lines_text (lines_from numbers.now count)) × (result ≤ most_line_text * count) }
{
    let mut at: usize = 0;
    for i in 0..count {
        at = put_line_text(text, at, line_at(numbers, i));
    }
    at
}

// The premiums and the total, a line each.
fn put_totals_text(text: &mut [u8], at: usize, premium: u64, total: u64) -> usize
    requires { at + most_totals_text ≤ length text.old }
    ensures { Put text.old text.new at result (totals_text premium total) × (result ≤ at + most_totals_text) }
{
    let word = put_word(text, at, b"premium");
    let number = put_number(text, word, premium);
    let line = put_word(text, number, b"\n");
    let word = put_word(text, line, b"total");
    let number = put_number(text, word, total);
    put_word(text, number, b"\n")
}

// A refusal, from the text's start: number and row.
fn put_refused_text(text: &mut [u8], number: u64, row: u64) -> usize
    requires { most_refused_text ≤ length text.old }
    ensures { Put text.old text.new 0 result (refused_text number row) × (result ≤ most_refused_text) }
{
    let word = put_word(text, 0, b"refused");
    let first = put_number(text, word, number);
    let second = put_number(text, first, row);
    put_word(text, second, b"\n")
}

// The margin of a file, from the text's start. The list of lines has room for every account.
pub fn put_margin_text(text: &mut [u8], file: &[u8]) -> usize
    requires { most_text ≤ length text.old }
    ensures { Put text.old text.new 0 result (margin_text file.now) × (result ≤ most_text) }
{
    let mut numbers = [0u64; MOST_NUMBERS];
    let answer = settle(file, MOST_LINES, &mut numbers);
    match answer {
        Ok(margin) => {
            let end = put_lines_text(text, &numbers, margin.count);
            put_totals_text(text, end, premium_total(file), margin.total)
        }
        Err(refused) => put_refused_text(
            text,
            refusal_number(refused.why) as u64,
            refused.row as u64,
        ),
    }
}
