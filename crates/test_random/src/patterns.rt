// Patterns for a text: read out of it along random variants, or of random bases; and spoilt ones.
use crate::drawn::{any_letter, below, letter, put_letters, stray};
use test_reference::places::{
    byte_at, letters_at, meant, part, put, put_part, segment_at, skip, word_at,
};

// How many bases a pattern is to have, 1 to 64: mostly few.
fn bases(seed: u64) -> usize {
    let most = match below(seed, 600, 16) {
        0 => return 64,
        1..=4 => 64,
        5..=8 => 16,
        _ => 6,
    };
    below(seed, 601, most).wrapping_add(1)
}

// The letters of a random variant of the segment at a place.
fn picked(bytes: &[u8], at: usize, seed: u64) -> &[u8] {
    let number = below(seed, at, byte_at(bytes, at) as usize);
    letters_at(bytes, skip(bytes, at.wrapping_add(1), number))
}

// Puts a random variant of each segment after the other, and tells how many letters they have.
fn path(out: &mut [u8], bytes: &[u8], seed: u64) -> usize {
    let mut n = 0;
    for j in 0..word_at(bytes, 0) {
        let at = segment_at(bytes, j as usize);
        n = put_part(&mut *out, n, picked(bytes, at, seed));
    }
    n
}

// The base that a letter means, or one that an unknown letter might be.
fn base(byte: u8, seed: u64, what: usize) -> u8 {
    match meant(byte) {
        Some(b'N') => letter(seed, what, 4),
        Some(base) => base,
        None => 0,
    }
}

// Puts the bases that letters mean, and tells how many.
fn put_bases(out: &mut [u8], letters: &[u8], seed: u64) -> usize {
    for (i, letter) in letters.iter().enumerate() {
        put(&mut *out, i, base(*letter, seed, i));
    }
    letters.len()
}

// Puts up to that many bases that can be read along a path of a text, and tells how many.
fn read_out(out: &mut [u8], bytes: &[u8], wanted: usize, seed: u64) -> usize {
    // Stays a buffer with its length: of a path that has no room the whole length counts.
    let mut letters = [0u8; 1024];
    let n = path(&mut letters, bytes, seed);
    let from = below(seed, 602, n);
    let m = n.saturating_sub(from).min(wanted);
    put_bases(&mut *out, part(&letters, from, m), seed)
}

// Puts one base that may be another, in one case of four.
fn slip(out: &mut [u8], m: usize, seed: u64) {
    if below(seed, 603, 4) == 0 {
        put(&mut *out, below(seed, 604, m), letter(seed, 605, 4));
    }
}

// Puts a pattern, and tells how many bases it has: half of them are read out of the text, where it has letters.
pub fn pattern(out: &mut [u8], bytes: &[u8], seed: u64) -> usize {
    let wanted = bases(seed);
    let asked = if below(seed, 606, 2) == 0 { wanted } else { 0 };
    let m = read_out(&mut *out, bytes, asked, seed);
    if m == 0 {
        put_letters(&mut *out, 0, wanted, seed, seed);
        return wanted;
    }
    slip(&mut *out, m, seed);
    m
}

// A byte that is no base: a letter in lower case, an unknown one, or no letter.
fn no_base(seed: u64) -> u8 {
    let byte = any_letter(seed, 609);
    if meant(byte) != Some(byte) {
        return byte;
    }
    if below(seed, 610, 2) == 0 {
        return b'N';
    }
    stray(seed, 611)
}

// Spoils a pattern of m bases where it stands, in one case of eight, and tells how many it has then: none of it, one base too many, or a
// byte that is no base.
pub fn spoil(out: &mut [u8], m: usize, seed: u64) -> usize {
    match below(seed, 607, 32) {
        0 => 0,
        1 => out.len(),
        2 | 3 => {
            put(&mut *out, below(seed, 608, m), no_base(seed));
            m
        }
        _ => m,
    }
}
