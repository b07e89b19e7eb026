// The search, straight from the definition of an occurrence: every length of P is tried at every variant. A set of lengths is a
// number with their bits; with bit 0 an occurrence may start afresh.
ghost use Rattle.std.specs.Prelude.{◌≡◌, ◌≤◌, take};

use crate::places::{alike, behind, byte_at, letters_at, part, segment_at};

// The most segments that are marked.
const MARKS: usize = 32;

// Whether a set has a length.
fn has(set: u64, q: usize) -> bool {
    q < 64 && set >> q & 1 == 1
}

// Whether P lies inside s.
fn inside(p: &[u8], s: &[u8]) -> bool {
    (0..s.len()).any(|at| alike(p, part(s, at, p.len())))
}

// Whether the first r bases of P end with s: they are a suffix of it, or s is the last of them and what is left was carried in.
fn carried(p: &[u8], s: &[u8], from: u64, r: usize) -> bool {
    let n = s.len();
    if p.len() <= r {
        return false;
    }
    if r <= n {
        return has(from, 0) && alike(&p[..r], &s[n - r..]);
    }
    has(from, r - n) && alike(&p[r - n..r], s)
}

// The lengths that are carried out after s.
fn carries(p: &[u8], s: &[u8], from: u64) -> u64 {
    let mut set = 0;
    for r in 1..64 {
        if carried(p, s, from, r) {
            set |= 1 << r;
        }
    }
    set
}

// Whether what is left of P after q bases is a prefix of s; where q is 0, whether P lies inside s.
fn finished(p: &[u8], s: &[u8], from: u64, q: usize) -> bool {
    if p.len() <= q {
        return false;
    }
    if q == 0 {
        return has(from, 0) && inside(p, s);
    }
    let left = &p[q..];
    has(from, q) && alike(left, part(s, 0, left.len()))
}

// Whether an occurrence ends in s.
fn ends(p: &[u8], s: &[u8], from: u64) -> bool {
    (0..64).any(|q| finished(p, s, from, q))
}

// What comes of a set of lengths in a segment: the lengths after it, and whether an occurrence ends in it.
#[derive(Clone, Copy)]
pub struct Step {
    pub bits: u64,
    pub ends: bool,
}

// The segment at a place.
pub fn through(p: &[u8], bytes: &[u8], at: usize, from: u64) -> Step {
    let mut step = Step {
        bits: from & 1,
        ends: false,
    };
    let mut place = at.wrapping_add(1);
    for _ in 0..byte_at(bytes, at) {
        let s = letters_at(bytes, place);
        step.bits |= carries(p, s, from);
        step.ends = step.ends || ends(p, s, from);
        place = behind(bytes, place);
    }
    step
}

// What comes of a set of lengths in a text: the lengths after it, the first end, if there is one, and the marks and
// their number.
#[derive(Clone, Copy)]
pub struct Ran {
    pub bits: u64,
    pub first: Option<usize>,
    pub ends: usize,
    pub segments: usize,
    pub row: [u8; MARKS],
}

impl Ran {
    // The mark of each segment.
    pub fn marks(&self) -> &[u8]
        ensures { self.now.segments ≤ 32 → result.now ≡ take self.now.segments self.now.row }
    {
        self.row.get(..self.segments).unwrap_or(&[])
    }

    // One segment more.
    fn add(&mut self, segment: usize, step: Step) {
        self.bits = step.bits;
        if step.ends {
            self.first = self.first.or(Some(segment));
            self.ends = self.ends.wrapping_add(1);
            self.row[segment % MARKS] = 1;
        }
    }
}

// That many segments of a text, from a set of lengths on.
pub fn run(p: &[u8], bytes: &[u8], segments: usize, from: u64) -> Ran {
    let mut ran = Ran {
        bits: from,
        first: None,
        ends: 0,
        segments,
        row: [0; MARKS],
    };
    for j in 0..segments {
        let bits = ran.bits;
        if bits == 0 {
            break;
        }
        ran.add(j, through(p, bytes, segment_at(bytes, j), bits));
    }
    ran
}
