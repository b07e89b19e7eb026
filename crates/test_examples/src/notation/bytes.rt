// Bytes as the examples write them. Raw: two hex digits for a byte, a capital letter for itself, and at most once (..*n), which is
// n times what stands before the star. Segments: {CGA,G}{e,T}, where e is the empty variant and none has over 255 letters.
ghost use Rattle.std.specs.Prelude.{◌<◌};

use crate::notation::words::{behind, spelt};
use test_reference::places::{byte_at, put};

// The value of a hex digit.
fn digit(byte: u8) -> u8
    ensures { result < 32 }
{
    let low = byte % 16;
    if byte <= b'9' { low } else { low + 9 }
}

// Puts a raw character after that many half bytes, and tells how many there are then.
fn raw_one(out: &mut [u8], halves: usize, byte: u8) -> usize {
    let at = halves / 2;
    match byte {
        b'A'..=b'Z' => {
            put(&mut *out, at, byte);
            halves.wrapping_add(2)
        }
        _ => {
            let high = byte_at(out, at).wrapping_mul(16);
            put(&mut *out, at, high.wrapping_add(digit(byte)));
            halves.wrapping_add(1)
        }
    }
}

// Puts raw characters, up to a parenthesis or a star.
fn raw_row(out: &mut [u8], from: usize, row: &[u8]) -> usize {
    let mut halves = from;
    for byte in row {
        if *byte < b'0' {
            break;
        }
        halves = raw_one(&mut *out, halves, *byte);
    }
    halves
}

// Puts raw characters n times.
fn raw_times(out: &mut [u8], from: usize, row: &[u8], n: u64) -> usize {
    let mut halves = from;
    for _ in 0..n {
        halves = raw_row(&mut *out, halves, row);
    }
    halves
}

// Puts raw bytes, and tells how many there are.
pub fn raw(out: &mut [u8], word: &[u8]) -> usize {
    let front = raw_row(&mut *out, 0, word);
    let unit = behind(word, b'(');
    let middle = raw_times(&mut *out, front, unit, spelt(behind(unit, b'*')));
    raw_row(&mut *out, middle, behind(unit, b')')) / 2
}

// One more, at a place.
fn bump(out: &mut [u8], at: usize) {
    let before = byte_at(out, at);
    put(&mut *out, at, before.wrapping_add(1));
}

// Puts segments from a place on into a buffer of zeros, counts them in its first byte, and tells the place after them. A lone
// segment, from place 0 on, has its variant count there instead. Places stay: counts and lengths are put behind what was put before.
fn segments(out: &mut [u8], from: usize, word: &[u8]) -> usize {
    let mut at = from;
    let mut count = from;
    let mut length = from;
    for byte in word {
        match *byte {
            b'{' => {
                bump(&mut *out, 0);
                put(&mut *out, at, 1);
                count = at;
                length = at.wrapping_add(1);
                at = at.wrapping_add(3);
            }
            b',' => {
                bump(&mut *out, count);
                length = at;
                at = at.wrapping_add(2);
            }
            b'}' | b'e' => {}
            letter => {
                put(&mut *out, at, letter);
                bump(&mut *out, length);
                at = at.wrapping_add(1);
            }
        }
    }
    at
}

// Puts a stretch, or with no head a lone segment, into a buffer of zeros, and tells how many bytes it has: segments, or raw bytes.
pub fn stretch(out: &mut [u8], word: &[u8], head: usize) -> usize {
    if word.starts_with(b"{") {
        return segments(&mut *out, head, word);
    }
    raw(&mut *out, word)
}
