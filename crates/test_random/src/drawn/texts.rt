// The bytes of texts: up to 12 segments of up to 5 variants, mostly short, now and then empty or longer than any pattern.
// The letters of half of them are masked.
use crate::drawn::masks::mask;
use crate::drawn::numbers::{below, seed};
use crate::drawn::puts::{put_letters, put_word};
use test_reference::places::{part, put, put_part, repeats, segment_at};

// The place after what was put, and how many variants or segments there are.
#[derive(Clone, Copy)]
struct Made {
    at: usize,
    count: usize,
}

// The length of a variant.
fn length(seed: u64) -> usize {
    match below(seed, 400, 128) {
        0 => below(seed, 401, 320),
        1..=3 => below(seed, 402, 71),
        4..=19 => 0,
        20..=43 => below(seed, 403, 9),
        _ => below(seed, 404, 4),
    }
}

// Whether the variant at a place is dropped: of those that repeat one from `first` on, few are kept.
fn drops(out: &[u8], first: usize, made: Made, seed: u64) -> bool {
    below(seed, 405, 64) != 0 && repeats(out, first, made.count, made.at)
}

// Puts one variant more of the segment whose variants stand from `first` on, if there is room.
fn variant(out: &mut [u8], first: usize, made: Made, text: u64, seed: u64) -> Made {
    let n = length(seed);
    let letters = made.at.wrapping_add(2);
    let end = letters.wrapping_add(n);
    if out.len() < end {
        return made;
    }
    put_word(&mut *out, made.at, n);
    put_letters(&mut *out, letters, n, text, seed);
    mask(&mut *out, letters, n, text, seed);
    if drops(out, first, made, seed) {
        return made;
    }
    Made {
        at: end,
        count: made.count.wrapping_add(1),
    }
}

// Puts up to that many variants.
fn variants(out: &mut [u8], first: usize, tries: usize, text: u64, from: u64) -> Made {
    let mut made = Made {
        at: first,
        count: 0,
    };
    for i in 0..tries {
        made = variant(&mut *out, first, made, text, seed(from, i));
    }
    made
}

// Puts one segment more, if there is room for a variant.
fn segment(out: &mut [u8], made: Made, text: u64, seed: u64) -> Made {
    let first = made.at.wrapping_add(1);
    let tries = below(seed, 500, 5).wrapping_add(1);
    let put_there = variants(&mut *out, first, tries, text, seed);
    if put_there.count == 0 {
        return made;
    }
    put(&mut *out, made.at, (put_there.count % 256) as u8);
    Made {
        at: put_there.at,
        count: made.count.wrapping_add(1),
    }
}

// Puts a text, and tells how many bytes it has.
pub fn text(out: &mut [u8], from: u64) -> usize {
    let segments = below(from, 501, 13);
    let mut made = Made { at: 2, count: 0 };
    for j in 0..segments {
        made = segment(&mut *out, made, from, seed(from, j));
    }
    put_word(&mut *out, 0, made.count);
    made.at
}

// The bytes of the segments of a text from one on and before another.
pub fn segments(bytes: &[u8], from: usize, to: usize) -> &[u8] {
    let at = segment_at(bytes, from);
    part(bytes, at, segment_at(bytes, to).wrapping_sub(at))
}

// Puts these segments as a stretch of their own, and tells how many bytes it has.
pub fn stretch(out: &mut [u8], bytes: &[u8], from: usize, to: usize) -> usize {
    put_word(&mut *out, 0, to.wrapping_sub(from));
    put_part(&mut *out, 2, segments(bytes, from, to))
}
