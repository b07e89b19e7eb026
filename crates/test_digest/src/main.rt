// Prints digests in hex, which tests/digest/run compares with those of another program: of the first n bytes of standard input, for each
// n up to 300, and of all of it, up to 2,000,000 bytes. Each stands on two lines, as the call on a slice tells it and as a hash tells it
// that takes the bytes in pieces.
#![tactic(auto)]

use digest::{Hashing, digest};
use files::fill;
use std::fmt;

// A digest in two hex digits for each byte.
#[derive(Clone, Copy)]
struct Hex([u8; 32]);

impl fmt::Display for Hex {
    fn fmt<W: fmt::Write>(&self, f: &mut fmt::Formatter<W>) -> fmt::Result {
        for byte in &self.0 {
            write!(f, "{byte:02x}")?;
        }
        Ok(())
    }
}

// The digest of the bytes in pieces: of none, of one, of two and so on, and of what is left.
fn in_pieces(bytes: &[u8]) -> [u8; 32] {
    let mut hash = Hashing::new();
    let mut rest = bytes;
    for n in 0..bytes.len() {
        if rest.len() <= n {
            break;
        }
        let (piece, tail) = rest.split_at(n);
        hash = hash.over(piece);
        rest = tail;
    }
    hash.over(rest).end()
}

fn tell(rt: &HostRuntime, digest: [u8; 32]) {
    let hex = Hex(digest);
    let _ = println!(rt; "{hex}");
}

fn tell_both(rt: &HostRuntime, bytes: &[u8]) {
    tell(rt, digest(bytes));
    tell(rt, in_pieces(bytes));
}

// A function of its own, since an array of that many bytes is too long for the proof of `main`.
fn room() -> [u8; 2000000] {
    [0u8; 2000000]
}

fn main(rt: HostRuntime) {
    let mut input = room();
    let bytes = fill(&mut rt.stdin(), &mut input)
        .unwrap_or(None)
        .unwrap_or(&[]);
    for n in 0..=bytes.len().min(300) {
        tell_both(&rt, &bytes[..n]);
    }
    tell_both(&rt, bytes);
}
