// Stretches damaged at random: a byte is another, or bytes are taken out, cut off or put in.
use crate::drawn::{any_letter, below, stray};
use test_reference::places::{byte_at, part, put, put_part};

// A byte that may stand in a stretch, or any other.
fn byte(seed: u64) -> u8 {
    let kind = below(seed, 700, 8);
    match kind {
        0..=2 => (kind % 256) as u8,
        3 => stray(seed, 714),
        4 => (below(seed, 701, 256) % 256) as u8,
        _ => any_letter(seed, 702),
    }
}

// Another byte for one that stands there: mostly a letter for a letter, or what is none.
fn other(old: u8, seed: u64) -> u8 {
    if old < b'A' {
        return byte(seed);
    }
    match below(seed, 703, 8) {
        0 => byte(seed),
        1..=3 => stray(seed, 715),
        _ => any_letter(seed, 704),
    }
}

// Puts another byte for one of the first n, those in front more often, in the ways from 3 on.
fn change(out: &mut [u8], n: usize, way: usize, seed: u64) {
    if way < 3 {
        return;
    }
    let most = if below(seed, 705, 8) == 0 { 8 } else { n };
    let at = below(seed, 706, most);
    let byte = other(byte_at(out, at), seed);
    put(&mut *out, at, byte);
}

// Puts the bytes; in the ways up to 3 with up to eight of them, or all from a place on, taken out, and up to eight others put in
// there, often at the end.
fn splice(out: &mut [u8], bytes: &[u8], way: usize, seed: u64) -> usize {
    if 3 < way {
        return put_part(&mut *out, 0, bytes);
    }
    let end = bytes.len();
    let at = if below(seed, 707, 3) == 0 {
        end
    } else {
        below(seed, 713, end)
    };
    let front = put_part(&mut *out, 0, part(bytes, 0, at));
    let others = part(bytes, below(seed, 708, end), below(seed, 709, 9));
    let middle = put_part(&mut *out, front, others);
    if below(seed, 710, 6) == 0 {
        return middle;
    }
    let back = at.wrapping_add(below(seed, 711, 9));
    let rest = part(bytes, back, end.wrapping_sub(back));
    put_part(&mut *out, middle, rest)
}

// Puts bytes damaged in one of eight ways, and tells how many there are then.
pub fn damage(out: &mut [u8], bytes: &[u8], seed: u64) -> usize {
    let way = below(seed, 712, 8);
    let n = splice(&mut *out, bytes, way, seed);
    change(&mut *out, n, way, seed);
    n
}
