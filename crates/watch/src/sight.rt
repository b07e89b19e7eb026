// Where a record is first seen in a stretch. The stretch was found sound once for the whole list, so this walk asks nothing of its bytes
// again. It is the search by complemented bit-vectors (search/src/bits.rt), from state to state up to the first end.
ghost use Rattle.std.specs.Prelude.{◌≡◌};
ghost use Rattle.text.specs.Refusal.{ok};
ghost use Rattle.text.specs.State.{marks};
ghost use Rattle.text.specs.Card.{first_end};
ghost use Rattle.layout.specs.Reading.{whole_stretch, Readable};
ghost use Rattle.watch.specs.Watching.{first_of};
ghost use Rattle.watch.specs.Sight.{Armed, Vectors, ScannedBy, Stepped, Sought, text_of, some_end};

use crate::watched::Watched;
use layout::cursor::Cursor;
use layout::walk::Walk;
use search::{State, complements};

// The complement of the word after a variant, and the bits that no word has had so far.
#[derive(Clone, Copy)]
struct Led {
    out: u64,
    missed: u64,
}

// The place after a segment, the state there, and whether an occurrence ends in it.
#[derive(Clone, Copy)]
struct Passed {
    next: usize,
    state: State,
    ends: bool,
}

// The word that the letters of a variant lead to.
fn scan(vectors: &[u64; 256], bits: u64, before: u64, variant: &[u8]) -> Led
    ensures { ScannedBy vectors.now bits before variant.now result.out result.missed }
{
    let mut out = !bits;
    let mut missed = before;
    for letter in variant {
        let e = out | vectors[*letter as usize];
        missed &= e;
        out = e << 1;
    }
    Led { out, missed }
}

// The state after the segment at `at`, a sound one.
fn over(state: State, pattern: &[u8], vectors: &[u64; 256], stretch: &[u8], at: usize) -> Passed
    requires { Armed pattern.now vectors.now state.bits × Readable stretch.now at }
    ensures { Stepped pattern.now state.bits stretch.now at result.next result.state.bits result.ends }
{
    let here = Passed {
        next: at,
        state,
        ends: false,
    };
    let Ok(mut cursor) = Cursor::enter(stretch, at) else {
        // A sound segment has its count.
        return here;
    };
    let mut out = 0xffff_ffff_ffff_fffe;
    let mut missed = 0xffff_ffff_ffff_ffff;
    // Each variant tells where the next begins: no iterator does.
    while 0 < cursor.left {
        let Ok(part) = cursor.head(stretch) else {
            // In a sound segment no variant is cut off.
            return here;
        };
        let letters = &stretch[part.start..part.next];
        let scanned = scan(vectors, state.bits, missed, letters);
        out &= scanned.out;
        missed = scanned.missed;
        cursor = cursor.past(stretch, part.next, letters.len());
    }
    let high = 0xffff_ffff_ffff_ffff << (pattern.len() - 1);
    let reached = State {
        bits: !(out | (high << 1)),
    };
    Passed {
        next: cursor.at,
        state: reached,
        ends: missed < high,
    }
}

// The first segment of a sound stretch in which an occurrence of the pattern ends. Sizes are not asked for.
fn first_end(pattern: &[u8], vectors: &[u64; 256], stretch: &[u8]) -> Option<usize>
    requires { Vectors pattern.now vectors.now × (whole_stretch stretch.now ≡ ok (text_of stretch.now)) }
    ensures { result ≡ some_end (first_end (marks pattern.now (text_of stretch.now))) }
{
    let Ok(mut walk) = Walk::open(stretch) else {
        // A sound stretch has its count.
        return None;
    };
    let mut state = State::FRESH;
    // Each segment tells where the next begins: no iterator does.
    while walk.passed < walk.count {
        let passed = over(state, pattern, vectors, stretch, walk.at);
        if passed.ends {
            return Some(walk.passed);
        }
        state = passed.state;
        walk = walk.past(passed.next, 0);
    }
    None
}

// The first segment in which an occurrence of a record ends.
pub fn sight(stretch: &[u8], item: &Watched) -> Option<usize>
    requires { Sought stretch.now item.now }
    ensures { result ≡ some_end (first_of item.now (text_of stretch.now)) }
{
    let pattern = &item.pattern[..item.m as usize];
    first_end(pattern, &complements(pattern), stretch)
}
