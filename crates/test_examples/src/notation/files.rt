// A variant file as the examples write it: @ is the heading ##fileformat=VCFv4. and after it each character stands for itself, but _ for
// a tab and ; for a line feed. Any other file is written as raw bytes.
use crate::notation::bytes::raw;
use test_reference::places::{put, put_part};

// What a character stands for.
fn meant(character: u8) -> u8 {
    match character {
        b'_' => b'\t',
        b';' => b'\n',
        _ => character,
    }
}

// Puts what characters stand for from a place on, and tells the place after them.
fn put_meant(out: &mut [u8], from: usize, row: &[u8]) -> usize {
    for (i, character) in row.iter().enumerate() {
        put(&mut *out, from.wrapping_add(i), meant(*character));
    }
    from.wrapping_add(row.len())
}

// Puts a variant file into a buffer of zeros, and tells how many bytes it has.
pub fn file(out: &mut [u8], word: &[u8]) -> usize {
    match word.strip_prefix(b"@") {
        Some(row) => {
            let end = put_part(&mut *out, 0, b"##fileformat=VCFv4.");
            put_meant(&mut *out, end, row)
        }
        None => raw(&mut *out, word),
    }
}
