// Patterns: 1 to 64 bases.
ghost use Rattle.std.specs.Prelude.{◌≡◌, not};
ghost use Rattle.text.specs.Letter.{base, every, first_not};
ghost use Rattle.text.specs.Refusal.{ok, pattern, outcome};

use crate::letter::is_base;
use crate::refusal::Refusal;
use crate::{limits, refusal};

// The place of the first byte that is no base; the length where every byte is one.
fn first_other(bytes: &[u8]) -> usize
    ensures { result ≡ first_not base bytes.now }
{
    bytes
        .iter()
        .position(|byte| !is_base(*byte))
        .unwrap_or(bytes.len())
}

// Whether a byte is no base, without a branch.
fn is_other(byte: u8) -> bool
    ensures { result ≡ not (base byte) }
{
    (byte != b'A') & (byte != b'C') & (byte != b'G') & (byte != b'T')
}

// Whether one of the bytes is no base. No branch depends on a byte, so that the compiler tests many at once: a call on a card asks this
// too, and a card is small.
fn any_other(bytes: &[u8]) -> bool
    ensures { result ≡ not (every base bytes.now) }
{
    let mut wrong = false;
    for byte in bytes {
        wrong |= is_other(*byte);
    }
    wrong
}

// Refusals 1, 2 and 3, asked in this order.
pub fn check(bytes: &[u8]) -> Result<(), Refusal>
    ensures { outcome result ≡ pattern bytes.now (ok tt) }
{
    let m = bytes.len();
    if m == 0 {
        return Err(Refusal {
            number: refusal::PATTERN_EMPTY,
            place: 0,
        });
    }
    if limits::GREATEST_PATTERN < m {
        return Err(Refusal {
            number: refusal::PATTERN_LONG,
            place: 0,
        });
    }
    if any_other(bytes) {
        return Err(Refusal {
            number: refusal::PATTERN_BYTE,
            place: first_other(bytes),
        });
    }
    Ok(())
}
