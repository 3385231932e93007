// Many files on one input, one after the other: each is its length in four little-endian bytes and then its bytes.
#![tactic(auto)]

ghost use Rattle.std.specs.Prelude.{◌≤◌, length, ◌≡◌, IfErr, IfOk, OnOk, Some, codes, ◌⊎◌};
ghost use Rattle.framing.specs.Frames.{frame_length};
ghost use Rattle.framing.specs.Runs.{CutOffAfter, TookAll, TurnedDown, most_files};

use account::bytes::u32_at;
use std::fmt;
use std::io::Read;

// The most files of a run over an input: `most_files` in contracts.
const MOST_FILES: u32 = 1_000_000_000;

// The input ended within a file, or in the four bytes before it.
#[derive(Clone, Copy, Debug, PartialEq, Eq)]
pub struct CutOff;

impl fmt::Display for CutOff {
    ghost output = { λ _. Some (codes "cut off") };

    fn fmt<W: fmt::Write>(&self, f: &mut fmt::Formatter<W>) -> fmt::Result {
        write!(f, "cut off")
    }
}

// Reads until the bytes are full, the input ends or a read fails; how many were read, from their start.
pub fn read_full<R: Read>(input: &mut R, bytes: &mut [u8]) -> usize
    ensures { (length bytes.new ≡ length bytes.old) × (result ≤ length bytes.old) }
{
    let mut done = 0;
    // A `while`, as it counts no index: each read says how far it came.
    while done < bytes.len() {
        match input.read(&mut bytes[done..]) {
            Ok(0) => break,
            Ok(n) => done += n,
            Err(_) => break,
        }
    }
    done
}

// The length of the next file; none where the input ends before it.
fn next_header<R: Read>(input: &mut R) -> Result<Option<usize>, CutOff> {
    let mut head = [0u8; 4];
    match read_full(input, &mut head) {
        0 => Ok(None),
        4 => Ok(Some(u32_at(&head, 0) as usize)),
        _ => Err(CutOff),
    }
}

// Reads count bytes and keeps none.
fn skip<R: Read>(input: &mut R, count: usize) -> Result<(), CutOff> {
    let mut byte = [0u8; 1];
    for _ in 0..count {
        if read_full(input, &mut byte) == 0 {
            return Err(CutOff);
        }
    }
    Ok(())
}

// Reads a file of n bytes; how many of them stand in the space. Of a file that is longer than the space, only as much as the
// space holds is kept.
fn take_file<R: Read>(input: &mut R, space: &mut [u8], n: usize) -> Result<usize, CutOff>
    ensures { (length space.new ≡ length space.old) × IfOk result (λ kept. kept ≤ length space.old) }
{
    let kept = n.min(space.len());
    if read_full(input, &mut space[..kept]) < kept {
        return Err(CutOff);
    }
    skip(input, n - kept)?;
    Ok(kept)
}

// The next file of the input, in the first bytes of the space, and how many of these it takes; none where the input ends.
pub fn next_file<R: Read>(input: &mut R, space: &mut [u8]) -> Result<Option<usize>, CutOff>
    ensures { (length space.new ≡ length space.old) × (frame_length result ≤ length space.old) }
{
    match next_header(input)? {
        Some(n) => take_file(input, space, n).map(Some),
        None => Ok(None),
    }
}

// Hands the files of the input to the closure, one after the other, until it turns one down, the input is cut off or ends, or
// 1,000,000,000 were taken. Where the input ends, every call answered Ok; an error is the closure's, or made of CutOff. The
// closure is lent, so that the promise can say how the calls left it.
pub fn for_each_file<R: Read, E: From<CutOff>, F: FnMut(&mut [u8]) -> Result<(), E>>(
    input: &mut R,
    space: &mut [u8],
    take: &mut F,
) -> Result<(), E>
    requires { F.IsAlwaysCallable take.old }
    ensures space { length space.new ≡ length space.old }
    ensures ended { OnOk result (TookAll F.FnMut most_files take.old take.new) }
    ensures stopped { IfErr result
        (λ e. CutOffAfter F.FnMut E.from_gives most_files take.old e take.new ⊎ TurnedDown F.FnMut most_files take.old e take.new) }
{
    for _ in 0..MOST_FILES {
        let Some(n) = next_file(input, space)? else {
            break;
        };
        take(&mut space[..n])?;
    }
    Ok(())
}
