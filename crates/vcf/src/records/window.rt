// The window: where a record lies against it, and whether its REF is what stands there.
ghost use Rattle.std.specs.Prelude.{◌≡◌, ◌+◌, min};
ghost use Rattle.text.specs.Letter.{meant};
ghost use Rattle.vcf.specs.Records.{beyond, placed, outside, agrees};

use text::compare::alike;

// After every position and every window.
pub const BEYOND: usize = 4294967296;

// The position after that many bases from a position on; BEYOND where that is greater.
pub fn behind(position: usize, bases: usize) -> usize
    ensures { result ≡ min beyond (position + bases) }
{
    if BEYOND < position {
        return BEYOND;
    }
    if BEYOND - position < bases {
        return BEYOND;
    }
    position + bases
}

// A piece of the reference, the first base of which stands at that position.
#[derive(Clone, Copy)]
pub struct Window<'a> {
    pub bases: &'a [u8],
    pub first: usize,
}

impl<'a> Window<'a> {
    // Refusal 28: whether it begins at position 1 or later and has no base beyond the last position.
    pub fn is_placed(self) -> bool
        ensures { result ≡ placed self.entry.bases.now self.entry.first }
    {
        let first = self.first;
        if first == 0 {
            return false;
        }
        let bases = self.bases.len();
        if bases == 0 {
            return true;
        }
        if 2147483648 < first {
            return false;
        }
        bases <= 2147483648 - first
    }

    // Whether a record from `position` up to `end` has no base in it.
    pub fn is_outside(self, position: usize, end: usize) -> bool
        ensures { result ≡ outside (meant self.entry.bases.now) self.entry.first position end }
    {
        let first = self.first;
        let bases = self.bases.len();
        if bases == 0 {
            return true;
        }
        if end <= first {
            return true;
        }
        if position < first {
            return false;
        }
        bases <= position - first
    }

    // Whether a record lies in it whole, and its REF is what stands there.
    pub fn agrees(self, position: usize, reference: &[u8]) -> bool
        ensures { result ≡ agrees (meant self.entry.bases.now) self.entry.first position (meant reference.now) }
    {
        let window = self.bases;
        let first = self.first;
        if position < first {
            return false;
        }
        let start = position - first;
        if window.len() < start {
            return false;
        }
        if window.len() - start < reference.len() {
            return false;
        }
        let end = start + reference.len();
        alike(reference, &window[start..end])
    }
}
