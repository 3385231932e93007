// A file's margin in words: `pair` and `left` lines, `premium` and `total`, or `refused` with number and row.
#![tactic(auto)]

ghost use Rattle.std.specs.Prelude.{MatchResult, OnOk, length, ◌≡◌};
ghost use Rattle.std.specs.Io.KnownBytes.{Appends};
ghost use Rattle.rules.specs.Output.{margin_text};

use crate::text::{MOST_TEXT, put_margin_text};
use std::io::Write;

pub mod text;
pub mod words;

// Not all of a margin's text, of so many bytes, could be written.
#[derive(Clone, Copy, Debug, PartialEq, Eq)]
pub struct Unwritten {
    pub size: usize,
}

// Writes the margin of a file; how many bytes of text it has. Where it is known what the output holds, the margin's text is
// what it has more after all of it was written.
pub fn print_margin<W: Write>(out: &mut W, file: &[u8]) -> Result<usize, Unwritten>
    ensures size { MatchResult result (λ size. size ≡ length (margin_text file.now)) (λ e. e.size ≡ length (margin_text file.now)) }
    ensures written { OnOk result (Appends (W.contents out.old) (W.contents out.new) (margin_text file.now)) }
{
    let mut text = [0u8; MOST_TEXT];
    let size = put_margin_text(&mut text, file);
    match out.write_all(&text[..size]) {
        Ok(()) => Ok(size),
        Err(_) => Err(Unwritten { size }),
    }
}
