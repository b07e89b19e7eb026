// Whether bytes are all letters, for the walks over many variants. No branch depends on a byte: of 16 and more the compiler tests 16 by
// a few instructions, and fewer are looked up in a table that the walk has filled. Where the first wrong byte stands is asked
// afterwards, by first_wrong.
ghost use Rattle.std.specs.Prelude.{◌+◌, ◌≤◌, ◌≡◌, not, length, take, drop};
ghost use Rattle.text.specs.Letter.{letter, every, Classes, wrong_by};

use crate::letter::first_wrong;

// How many bytes are tested at once.
const BLOCK: usize = 16;

// A table with 0 for each letter and 1 for every other byte.
pub fn classes() -> [u8; 256]
    ensures { Classes result }
{
    let mut table = [1u8; 256];
    table[0x41] = 0;
    table[0x43] = 0;
    table[0x47] = 0;
    table[0x54] = 0;
    table[0x4E] = 0;
    table[0x61] = 0;
    table[0x63] = 0;
    table[0x67] = 0;
    table[0x74] = 0;
    table[0x6E] = 0;
    table
}

// Whether a byte is no letter: without the bit of lower case there are five.
fn is_wrong(byte: u8) -> bool
    ensures { result ≡ not (letter byte) }
{
    let c = byte & 0xDF;
    (c != b'A') & (c != b'C') & (c != b'G') & (c != b'T') & (c != b'N')
}

// Whether one of the 16 bytes from `at` on is no letter.
fn wrong_in_block(part: &[u8], at: usize) -> bool
    requires { at + 16 ≤ length part.now }
    ensures { result ≡ not (every letter (take 16 (drop at part.now))) }
{
    let block = &part[at..at + BLOCK];
    let mut wrong = false;
    for byte in block {
        wrong |= is_wrong(*byte);
    }
    wrong
}

// Whether one of 16 bytes or more is no letter: block by block, of which the last may overlap the one before it.
fn wrong_in_blocks(part: &[u8]) -> bool
    requires { 16 ≤ length part.now }
    ensures { result ≡ not (every letter part.now) }
{
    let last = part.len() - BLOCK;
    let mut wrong = wrong_in_block(part, last);
    for at in (0..last).step_by(BLOCK) {
        wrong |= wrong_in_block(part, at);
    }
    wrong
}

// Whether one of the bytes is no letter.
pub fn any_wrong(part: &[u8]) -> bool
    ensures { result ≡ not (every letter part.now) }
{
    if part.len() < BLOCK {
        return first_wrong(part) < part.len();
    }
    wrong_in_blocks(part)
}

// The same by a table, for many short parts one after another: with that of `classes` the answer is that of `any_wrong`.
pub fn any_wrong_by(classes: &[u8; 256], part: &[u8]) -> bool
    ensures { result ≡ wrong_by classes.now part.now }
{
    if BLOCK <= part.len() {
        return wrong_in_blocks(part);
    }
    let mut bad = 0u8;
    for byte in part {
        bad |= classes[*byte as usize];
    }
    bad != 0
}
