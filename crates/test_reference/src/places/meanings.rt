// What the letters of a text mean: a base, whatever their case, or that the base is unknown. Letters are equal by meaning.
use crate::places::parts::{letters_at, skip};

// The base in upper case, N for one that is unknown; none for a byte that is no letter.
pub fn meant(byte: u8) -> Option<u8> {
    match byte {
        b'A' | b'a' => Some(b'A'),
        b'C' | b'c' => Some(b'C'),
        b'G' | b'g' => Some(b'G'),
        b'T' | b't' => Some(b'T'),
        b'N' | b'n' => Some(b'N'),
        _ => None,
    }
}

// Whether two rows of letters mean the same. No base of a pattern is N, so an unknown letter equals none of them.
pub fn alike(a: &[u8], b: &[u8]) -> bool {
    a.len() == b.len() && a.iter().zip(b).all(|(x, y)| meant(*x) == meant(*y))
}

// Whether the variant at a place means what one of the k that stand from `first` on means.
pub fn repeats(bytes: &[u8], first: usize, k: usize, at: usize) -> bool {
    let letters = letters_at(bytes, at);
    (0..k).any(|i| alike(letters_at(bytes, skip(bytes, first, i)), letters))
}
