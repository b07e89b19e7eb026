// The opposite strand of a pattern, base by base from its end, A with T and C with G; and marks of both strands.
use crate::places::parts::put;

// The base that stands opposite; any other byte is its own.
fn facing(byte: u8) -> u8 {
    match byte {
        b'A' => b'T',
        b'T' => b'A',
        b'C' => b'G',
        b'G' => b'C',
        _ => byte,
    }
}

// Puts the pattern as the opposite strand reads it, and tells its length.
pub fn turned(out: &mut [u8], p: &[u8]) -> usize {
    for (i, base) in p.iter().rev().enumerate() {
        put(&mut *out, i, facing(*base));
    }
    p.len()
}

// Adds a row of marks to another, and tells how many segments are marked.
pub fn unite(marks: &mut [u8], more: &[u8]) -> usize {
    for (mark, other) in marks.iter_mut().zip(more) {
        *mark |= *other;
    }
    marks.iter().filter(|mark| **mark != 0).count()
}
