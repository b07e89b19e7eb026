// A text taken apart: its letters in a row, the lengths of its variants and the variant counts of its segments; and the text with its
// letters raised, as it is written again.
use crate::places::meanings::meant;
use crate::places::parts::{byte_at, letters_at, place_of, put, put_part, segment_at, word_at};

// The letters of all variants in a row, and how many there are.
pub fn letters(out: &mut [u8], bytes: &[u8], segments: usize, variants: usize) -> usize {
    let mut n = 0;
    for k in 0..variants {
        let place = place_of(bytes, segments, k);
        n = put_part(&mut *out, n, letters_at(bytes, place.at));
    }
    n
}

// The length of each variant, as far as there is room.
pub fn lengths(out: &mut [u16], bytes: &[u8], segments: usize) {
    for (k, length) in out.iter_mut().enumerate() {
        *length = word_at(bytes, place_of(bytes, segments, k).at);
    }
}

// The variant count of each segment, as far as there is room.
pub fn counts(out: &mut [u8], bytes: &[u8]) {
    for (j, count) in out.iter_mut().enumerate() {
        *count = byte_at(bytes, segment_at(bytes, j));
    }
}

// The bytes with each of their letters in upper case, and how many they are.
pub fn raised(out: &mut [u8], bytes: &[u8], segments: usize, variants: usize) -> usize {
    let end = put_part(&mut *out, 0, bytes);
    for k in 0..variants {
        let at = place_of(bytes, segments, k).at;
        for (i, letter) in letters_at(bytes, at).iter().enumerate() {
            let place = at.wrapping_add(2).wrapping_add(i);
            put(&mut *out, place, meant(*letter).unwrap_or(0));
        }
    }
    end
}
