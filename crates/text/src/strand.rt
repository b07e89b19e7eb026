// Strands: the pattern as it is given, and as the opposite strand reads it, its reverse complement.
ghost use Rattle.std.specs.Prelude.{◌≤◌, ◌≡◌, length};
ghost use Rattle.text.specs.Refusal.{greatest_pattern};
ghost use Rattle.text.specs.Card.{padded};
ghost use Rattle.text.specs.Strand.{complement, opposite, read_on};

use crate::limits;

// The strand on which a pattern is read.
#[derive(Clone, Copy)]
pub enum Strand {
    Given,
    Opposite,
}

// The base that stands opposite; a byte that is no base is its own complement.
pub fn complement(c: u8) -> u8
    ensures { result ≡ complement c }
{
    match c {
        b'A' => b'T',
        b'T' => b'A',
        b'C' => b'G',
        b'G' => b'C',
        _ => c,
    }
}

// The pattern as a strand reads it, then zeros; of over 64 bytes the first 64, as they stand.
pub fn read_on(strand: Strand, pattern: &[u8]) -> [u8; limits::GREATEST_PATTERN]
    ensures { result ≡ read_on strand pattern.now }
{
    let m = pattern.len();
    if limits::GREATEST_PATTERN < m {
        let end = limits::GREATEST_PATTERN;
        return copied(&pattern[..end]);
    }
    match strand {
        Strand::Given => copied(pattern),
        Strand::Opposite => turned(pattern),
    }
}

// Up to 64 bytes as they stand, then zeros.
fn copied(part: &[u8]) -> [u8; limits::GREATEST_PATTERN]
    requires { length part.now ≤ greatest_pattern }
    ensures { result ≡ padded part.now }
{
    let mut bytes = [0u8; limits::GREATEST_PATTERN];
    bytes[..part.len()].copy_from_slice(part);
    bytes
}

// The reverse complement of up to 64 bytes, then zeros.
fn turned(part: &[u8]) -> [u8; limits::GREATEST_PATTERN]
    requires { length part.now ≤ greatest_pattern }
    ensures { result ≡ padded (opposite part.now) }
{
    let mut bytes = [0u8; limits::GREATEST_PATTERN];
    for i in 0..part.len() {
        let from = part.len() - 1 - i;
        bytes[i] = complement(part[from]);
    }
    bytes
}
