// Words and numbers put into a text: a lent list, since there is no heap and `Put` says where each byte stands (a).
ghost use Rattle.std.specs.Prelude.{◌+◌, ◌≤◌, length};
ghost use Rattle.rules.specs.Output.{number_text};
ghost use Rattle.statement.specs.Puts.{Put};
ghost use Rattle.statement.specs.Sizes.{most_number_text};

// The most digits of a number, `most_digits` in contracts.
pub const MOST_DIGITS: usize = 20;

// The most bytes of a number's text, `most_number_text` in contracts.
pub const MOST_NUMBER_TEXT: usize = 1 + MOST_DIGITS;

// The word at a place of the text; where it ends.
pub fn put_word(text: &mut [u8], at: usize, word: &[u8]) -> usize
    requires { at + length word.now ≤ length text.old }
    ensures { Put text.old text.new at result word.now }
{
    let end = at + word.len();
    text[at..end].copy_from_slice(word);
    end
}

// A space and the number.
pub fn put_number(text: &mut [u8], at: usize, n: u64) -> usize
    requires { at + most_number_text ≤ length text.old }
    ensures { Put text.old text.new at result (number_text n) × (result ≤ at + most_number_text) }
{
    let mut digits = [0u8; MOST_DIGITS];
    let k = io::decimal(n, &mut digits);
    let start = put_word(text, at, b" ");
    put_word(text, start, &digits[..k])
}
