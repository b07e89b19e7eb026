// First ends: the first among marks, and which of two is earlier.
ghost use Rattle.std.specs.Prelude.{◌≡◌, cond, ◌≤◌, min, length};
ghost use Rattle.text.specs.Card.{none, most_segments, first_end};

use text::limits;

// The first end where none is. It stays a number, as in a card: it is the latest, so that the earlier of two ends is the lesser.
pub const NONE: u32 = limits::NO_SEGMENT as u32;

// The number of the first mark that is 1.
pub fn first_end(marks: &[u8]) -> u32
    requires { length marks.now ≤ most_segments }
    ensures { result ≡ first_end marks.now }
{
    match marks.iter().position(|mark| *mark == 1) {
        Some(k) => k as u32,
        None => NONE,
    }
}

// The earlier of two first ends; "none" is the latest.
pub fn earlier(a: u32, b: u32) -> u32
    ensures { result ≡ min a b }
{
    a.min(b)
}

// The earlier of a first end and of segment k, where an occurrence ends in it.
pub fn sooner(first: u32, ends: bool, k: u32) -> u32
    ensures { result ≡ min first (cond ends k none) }
{
    if ends { earlier(first, k) } else { first }
}
