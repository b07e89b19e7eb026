// The words of the command line, as bytes. The first is the program's own name, and has number 0.
ghost use Rattle.files.specs.Reads.{ReadInto};

use std::env::{Env, FillError};

// Room for a word that names a file: the longest such name has fewer bytes.
pub const WORD: usize = 4096;

// A word, put at the start of the buffer; empty where it is missing or has no room.
pub fn word<'a>(rt: &HostRuntime, number: usize, out: &'a mut [u8]) -> &'a [u8]
    ensures { ReadInto out.entry result }
{
    let n = rt.arg(number, &mut *out).unwrap_or(0);
    &out[..n]
}

// Whether the command line has a word of this number.
fn is_there(rt: &HostRuntime, number: usize) -> bool {
    !matches!(rt.arg(number, &mut []), Err(FillError::NotPresent))
}

// How many words there are, the program's own name among them.
pub fn count_words(rt: &HostRuntime) -> usize {
    (0..usize::MAX)
        .find(|n| !is_there(rt, *n))
        .unwrap_or(usize::MAX)
}
