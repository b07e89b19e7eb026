// Marks reach the caller's buffer only once the whole stretch is accepted: a search runs into a buffer of its own, and copies.
ghost use Rattle.std.specs.Prelude.{◌≡◌, ◌≤◌, leb, length};
ghost use Rattle.text.specs.Refusal.{ok, after, demand, outcome};
ghost use Rattle.text.specs.State.{marks_from};
ghost use Rattle.layout.specs.Bytes.{left_by};
ghost use Rattle.layout.specs.Pieces.{most_in_stretch};
ghost use Rattle.layout.specs.Reading.{segments_of};
ghost use Rattle.layout.specs.Walk.{Begun, most_ahead};
ghost use Rattle.search.specs.Answers.{into, whole_into, seen_from, told_marked, Markable, handed};
ghost use Rattle.search.specs.Masks.{StateOf};

use crate::method::Method;
use crate::run::run;
use crate::state::State;
use layout::walk::Walk;
use text::limits::MOST_IN_STRETCH;
use text::{Refusal, refusal};

// What a search of a stretch tells once it is accepted: the segment count, the size, the number of ones among the marks, and the state
// after the stretch, of one strand or of both.
#[derive(Clone, Copy)]
pub struct Marked<S> {
    pub segments: usize,
    pub size: usize,
    pub ends: usize,
    pub state: S,
}

// A stretch of at most 1,024 bytes is small. It has at most 340 segments: each has at least 3 bytes, after the count's 2.
pub const SMALL_STRETCH: usize = 1024;

pub const MOST_IN_SMALL: usize = (SMALL_STRETCH - layout::FIRST_SEGMENT) / layout::LEAST_SEGMENT;

// Hands over the marks of that many segments once all is accepted: refusal 10.
pub fn hand(segments: usize, found: &[u8], marks: &mut [u8]) -> Result<(), Refusal>
    requires { segments ≤ length found.now }
    ensures value { outcome result ≡ demand (leb segments (length marks.old)) 10 0 (ok tt) }
    ensures marks_after { marks.new ≡ handed segments found.now marks.old }
{
    if marks.len() < segments {
        return Err(Refusal {
            number: refusal::BUFFER_SHORT,
            place: 0,
        });
    }
    marks[..segments].copy_from_slice(&found[..segments]);
    Ok(())
}

// Marks the segments of a walk that begins, with room for that many marks on the way.
fn mark_in<M: Method, const ROOM: usize>(
    method: M,
    state: State,
    stretch: &[u8],
    walk: Walk,
    marks: &mut [u8],
) -> Result<Marked<State>, Refusal>
    requires tools { M.founded method × StateOf (M.pattern method) state.bits }
    requires begun { Begun stretch.now walk × (most_ahead stretch.now walk ≤ ROOM) }
    requires most { ROOM ≤ most_in_stretch }
    ensures result_value { told_marked result ≡ after (into (length marks.old) (segments_of stretch.now walk.count walk.at))
        (λ t. ok (seen_from (M.pattern method) state.bits t)) }
    ensures marks_after { marks.new ≡ left_by (marks_from (M.pattern method) state.bits)
        (into (length marks.old) (segments_of stretch.now walk.count walk.at)) marks.old }
{
    let mut found = [0u8; ROOM];
    let marked = run(false, method, state, stretch, walk, &mut found)?;
    hand(marked.segments, &found, &mut *marks)?;
    Ok(marked)
}

// Marks the segments of a stretch by a method, from a state on: the refusals of the stretch, its length apart, then 10. A
// small stretch takes a small buffer, since clearing one for the most segments costs more than the search of some hundred bytes.
pub fn mark<M: Method>(
    method: M,
    state: State,
    stretch: &[u8],
    marks: &mut [u8],
) -> Result<Marked<State>, Refusal>
    requires { M.founded method × StateOf (M.pattern method) state.bits × Markable stretch.now }
    ensures result_value { told_marked result ≡ after (whole_into stretch.now (length marks.old))
        (λ t. ok (seen_from (M.pattern method) state.bits t)) }
    ensures marks_after { marks.new ≡ left_by (marks_from (M.pattern method) state.bits)
        (whole_into stretch.now (length marks.old)) marks.old }
{
    let walk = Walk::open(stretch)?;
    if stretch.len() <= SMALL_STRETCH {
        return mark_in::<M, MOST_IN_SMALL>(method, state, stretch, walk, &mut *marks);
    }
    mark_in::<M, MOST_IN_STRETCH>(method, state, stretch, walk, &mut *marks)
}
