// Letters of texts as references have them: some in lower case, some unknown; and bytes that are no letters.
use crate::drawn::numbers::below;
use crate::drawn::puts::letter;
use test_reference::places::{byte_at, put};

// A base as a text may have it, by a number below 32: unknown, in lower case, or as it is.
fn masked(base: u8, kind: usize) -> u8 {
    match kind {
        0 => b'N',
        1 => b'n',
        2..=14 => base | 32,
        _ => base,
    }
}

// n letters from a place on, masked in half of the texts.
pub fn mask(out: &mut [u8], from: usize, n: usize, text: u64, seed: u64) {
    if below(text, 301, 2) == 0 {
        return;
    }
    for i in 0..n {
        let at = from.wrapping_add(i);
        let kind = below(seed, i.wrapping_add(1000), 32);
        let byte = masked(byte_at(out, at), kind);
        put(&mut *out, at, byte);
    }
}

// A letter of any kind.
pub fn any_letter(seed: u64, what: usize) -> u8 {
    let kind = below(seed, what.wrapping_add(1000), 32);
    masked(letter(seed, what, 4), kind)
}

// A byte that is no letter: beside one, beside all of them, one that stands for several bases, or one with its high bit set.
pub fn stray(seed: u64, what: usize) -> u8 {
    let strays = b"@[`{BDFHMOSUbdfhmosuRYKWrykw-.* \x00\xc1\xe1\xce\xee";
    byte_at(strays, below(seed, what, strays.len()))
}
