// Screens a stretch for a pattern. Standard input is a byte with the pattern's length, the pattern, then the stretch to the end. A
// word names the strands that are screened; without one it is the pattern as given. With the word `apart` after it the pattern alone is on
// standard input, and the stretch on descriptor 7. What is printed is what `screen` has put into the buffer, and nothing for a word that
// names no strands, or where not all could be read.
#![tactic(auto)]

ghost use Rattle.std.specs.Prelude.{◌≤◌, length, IfOk};
ghost use Rattle.lines.specs.Input.{most_read};
ghost use Rattle.lines.specs.Answer.{most_bytes};
ghost use Rattle.screen.specs.Screened.{Screened};

use files::{count_words, fail, given_to_read, read_all, word, write_all};
use lines::strands::{Strands, by_word};
use std::io;
use text::strand::Strand;

// The descriptor of a stretch that comes apart from the pattern.
const STRETCH: u32 = 7;

// The buffer stays beside a number: `Screened` speaks of both, and the edits room_for_1000_bytes are of the fixed buffers.
// Puts the lines of an input into `out` and tells how many bytes they are. The first n of `bytes` are all of the input or, since no
// line depends on what lies after them, as much as there is room for.
fn screen(strands: Strands, bytes: &[u8], n: usize, out: &mut [u8]) -> usize
    requires { (n ≤ length bytes.now) × (most_read ≤ length bytes.now) × (most_bytes ≤ length out.old) }
    ensures { Screened strands bytes.now n out.new result }
{
    lines::screened(strands, &bytes[..n], &mut *out)
}

// The strands that the command line names; none where its word names none.
fn strands_asked(rt: &HostRuntime) -> Option<Strands> {
    if count_words(rt) < 2 {
        return Some(Strands::One(Strand::Given));
    }
    let mut strands = [0u8; 9];
    by_word(word(rt, 1, &mut strands))
}

// Whether the stretch is on descriptor 7.
fn is_apart(rt: &HostRuntime) -> bool {
    let mut way = [0u8; 6];
    word(rt, 2, &mut way) == b"apart".as_slice()
}

// Reads a file to its end, or as much of it as there is room for: how many bytes that is.
fn read<F: io::Read>(file: &mut F, bytes: &mut [u8]) -> io::Result<usize>
    ensures { IfOk result (λ n. n ≤ length bytes.new) }
{
    let room = bytes.len();
    Ok(read_all(file, &mut *bytes)?.map_or(room, |read| read.len()))
}

// Reads the input, of which the stretch may come apart: how many bytes it is, or the front of it for which there is room.
fn read_input(rt: &HostRuntime, bytes: &mut [u8]) -> io::Result<usize>
    ensures { IfOk result (λ n. n ≤ length bytes.new) }
{
    let n = read(&mut rt.stdin(), &mut *bytes)?;
    if !is_apart(rt) {
        return Ok(n);
    }
    let mut stretch = given_to_read(rt, STRETCH)?;
    let more = read(&mut stretch, &mut bytes[n..])?;
    Ok(n + more)
}

fn main(rt: HostRuntime) {
    let Some(strands) = strands_asked(&rt) else {
        return;
    };
    let mut bytes = [0u8; lines::input::MOST_READ];
    let mut out = [0u8; lines::MOST_BYTES];
    match read_input(&rt, &mut bytes) {
        Ok(n) => {
            let end = screen(strands, &bytes, n, &mut out);
            let _ = write_all(&mut rt.stdout(), &out[..end]);
        }
        Err(error) => {
            fail(&rt, b"screen: the input", error);
        }
    }
}
