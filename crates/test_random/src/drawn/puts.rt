// Bytes put into a buffer, as far as there is room.
use crate::drawn::numbers::below;
use test_reference::places::{byte_at, put, put_part};

// A number of two bytes, low byte first.
pub fn put_word(out: &mut [u8], at: usize, number: usize) {
    put_part(&mut *out, at, &((number % 65536) as u16).to_le_bytes());
}

// One of the first that many of A, C, G, T.
pub fn letter(seed: u64, what: usize, alphabet: usize) -> u8 {
    byte_at(b"ACGT", below(seed, what, alphabet))
}

// An alphabet of one, two or four letters.
fn alphabet(seed: u64) -> usize {
    match below(seed, 300, 8) {
        0 => 1,
        1..=4 => 2,
        _ => 4,
    }
}

// n letters from a place on. The seed of the alphabet is that of the text.
pub fn put_letters(out: &mut [u8], from: usize, n: usize, text: u64, seed: u64) {
    let letters = alphabet(text);
    for i in 0..n {
        put(&mut *out, from.wrapping_add(i), letter(seed, i, letters));
    }
}
