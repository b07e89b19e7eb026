// The search on both strands at once, by bit-vectors: the family's sequence may be on file as read from either strand, and the text has
// only one. It is one walk over the bytes with a word for each strand, and marks what the searches of the two strands mark together.
ghost use Rattle.std.specs.Prelude.{◌≡◌, ◌≤◌, length};
ghost use Rattle.text.specs.Refusal.{ok, after, outcome};
ghost use Rattle.text.specs.Strand.{opposite};
ghost use Rattle.layout.specs.Bytes.{left_by};
ghost use Rattle.layout.specs.Pieces.{most_in_stretch};
ghost use Rattle.layout.specs.Reading.{segments_of};
ghost use Rattle.layout.specs.Walk.{Begun, most_ahead};
ghost use Rattle.search.specs.Answers.{searching, into, whole_into, told_searched, Markable};
ghost use Rattle.search.specs.Masks.{StateOf};
ghost use Rattle.search.specs.Either.{evens, odds, Founds, Vectors, either_marks, either_sums, either_from, entering_both, seeking_both};
ghost use Rattle.search.specs.Either.{seen_both, told_both, told_marked_both};

use crate::both::run::run_both;
use crate::both::words::masks_both;
use crate::entry::enter;
use crate::marking::{MOST_IN_SMALL, Marked, SMALL_STRETCH, hand};
use crate::searching::Searched;
use crate::state::State;
use layout::walk::Walk;
use text::limits::MOST_IN_STRETCH;
use text::spelling::classes;
use text::state::is_state;
use text::strand::{Strand, read_on};
use text::{Refusal, refusal};

mod run;
mod segment;
mod words;

pub use words::Pair;

// What a search from a state of each strand answers: the segment count, the size, the number of ones among the marks, and the states
// after the stretch.
// Stays an enum of its own: its name and shape are fixed.
#[derive(Clone, Copy)]
pub enum SoughtBoth {
    Marked {
        segments: usize,
        size: usize,
        ends: usize,
        state: Pair,
    },
    Refused(Refusal),
}

impl From<Result<Marked<Pair>, Refusal>> for SoughtBoth {
    fn from(marked: Result<Marked<Pair>, Refusal>) -> SoughtBoth
        ensures { told_both result ≡ told_marked_both marked }
    {
        match marked {
            Ok(
                Marked {
                    segments,
                    size,
                    ends,
                    state,
                },
            ) => SoughtBoth::Marked {
                segments,
                size,
                ends,
                state,
            },
            Err(refused) => SoughtBoth::Refused(refused),
        }
    }
}

// Marks the segments of a walk that begins, on both strands, with room for that many marks on the way.
fn mark_both_in<const ROOM: usize>(
    pattern: &[u8],
    table: &[u64; 512],
    classes: &[u8; 256],
    state: Pair,
    stretch: &[u8],
    walk: Walk,
    marks: &mut [u8],
) -> Result<Marked<Pair>, Refusal>
    requires vectors { Vectors pattern.now (evens table.now) classes.now
        × Vectors (opposite pattern.now) (odds table.now) classes.now }
    requires state_of { StateOf pattern.now state.given × StateOf (opposite pattern.now) state.opposite }
    requires begun { Begun stretch.now walk × (most_ahead stretch.now walk ≤ ROOM) }
    requires most { ROOM ≤ most_in_stretch }
    ensures result_value { told_marked_both result ≡ after (into (length marks.old) (segments_of stretch.now walk.count walk.at))
        (λ t. ok (seen_both pattern.now state.given state.opposite t)) }
    ensures marks_after { marks.new ≡ left_by (either_from pattern.now state.given state.opposite)
        (into (length marks.old) (segments_of stretch.now walk.count walk.at)) marks.old }
{
    let mut found = [0u8; ROOM];
    let marked = run_both(pattern, table, classes, state, stretch, walk, &mut found)?;
    hand(marked.segments, &found, &mut *marks)?;
    Ok(marked)
}

// Marks the segments of a stretch on both strands: the refusals of the stretch, its length apart, then 10. A small stretch takes a small
// buffer, as in the search of one strand.
fn mark_both(
    pattern: &[u8],
    table: &[u64; 512],
    state: Pair,
    stretch: &[u8],
    marks: &mut [u8],
) -> Result<Marked<Pair>, Refusal>
    requires founds { Founds pattern.now (evens table.now) × Founds (opposite pattern.now) (odds table.now) }
    requires state_of { StateOf pattern.now state.given × StateOf (opposite pattern.now) state.opposite × Markable stretch.now }
    ensures result_value { told_marked_both result ≡ after (whole_into stretch.now (length marks.old))
        (λ t. ok (seen_both pattern.now state.given state.opposite t)) }
    ensures marks_after { marks.new ≡ left_by (either_from pattern.now state.given state.opposite)
        (whole_into stretch.now (length marks.old)) marks.old }
{
    let walk = Walk::open(stretch)?;
    let letters = classes();
    if stretch.len() <= SMALL_STRETCH {
        return mark_both_in::<MOST_IN_SMALL>(
            pattern,
            table,
            &letters,
            state,
            stretch,
            walk,
            &mut *marks,
        );
    }
    mark_both_in::<MOST_IN_STRETCH>(pattern, table, &letters, state, stretch, walk, &mut *marks)
}

// Refusals 1, 2, 3 of the pattern, 4 of the bytes, and 17 of the states.
fn enter_both(pattern: &[u8], state: Pair, bytes: &[u8]) -> Result<(), Refusal>
    ensures { outcome result
        ≡ entering_both pattern.now state.given state.opposite bytes.now (ok tt) }
{
    let given = State { bits: state.given };
    enter(pattern, given, bytes)?;
    if !is_state(pattern.len(), state.opposite) {
        return Err(Refusal {
            number: refusal::STATE_WRONG,
            place: 0,
        });
    }
    Ok(())
}

impl Pair {
    // The search of a whole stretch on both strands at once, each from its state: refusals 1, 2, 3 of the pattern as given, 4, 17,
    // those of the stretch, then 10. It writes 1 for each segment in which an occurrence ends on either strand, else 0; further bytes
    // stay, and a refusal changes nothing. The states after the stretch are where the search of the next one begins.
    pub fn through(self, pattern: &[u8], stretch: &[u8], marks: &mut [u8]) -> SoughtBoth
        ensures result_value { told_both result ≡ after (seeking_both pattern.now self.given self.opposite stretch.now
            (length marks.old)) (λ t. ok (seen_both pattern.now self.given self.opposite t)) }
        ensures marks_after { marks.new ≡ left_by (either_from pattern.now self.given self.opposite)
            (seeking_both pattern.now self.given self.opposite stretch.now (length marks.old))
            marks.old }
    {
        SoughtBoth::from(self.marked(pattern, stretch, &mut *marks))
    }

    // The same as a result.
    fn marked(
        self,
        pattern: &[u8],
        stretch: &[u8],
        marks: &mut [u8],
    ) -> Result<Marked<Pair>, Refusal>
        ensures result_value { told_marked_both result ≡ after (seeking_both pattern.now self.given self.opposite stretch.now
            (length marks.old)) (λ t. ok (seen_both pattern.now self.given self.opposite t)) }
        ensures marks_after { marks.new ≡ left_by (either_from pattern.now self.given self.opposite)
            (seeking_both pattern.now self.given self.opposite stretch.now (length marks.old))
            marks.old }
    {
        enter_both(pattern, self, stretch)?;
        let m = pattern.len();
        let bytes = read_on(Strand::Opposite, pattern);
        let table = masks_both(pattern, &bytes[..m]);
        mark_both(pattern, &table, self, stretch, &mut *marks)
    }
}

// The search that marks a segment when an occurrence of the pattern as given or of its opposite ends there: refusals 1, 2, 3 of the
// pattern as given, those of the stretch, then 10. It writes 1 or 0 for each segment; further bytes stay, and a refusal changes nothing.
// A segment in which both strands end is one of the ones.
pub fn either(pattern: &[u8], stretch: &[u8], marks: &mut [u8]) -> Searched
    ensures result_value { told_searched result ≡ after (searching pattern.now stretch.now (length marks.old))
        (λ t. ok (either_sums pattern.now t)) }
    ensures marks_after { marks.new ≡ left_by (either_marks pattern.now)
        (searching pattern.now stretch.now (length marks.old)) marks.old }
{
    Searched::from(Pair::FRESH.marked(pattern, stretch, &mut *marks))
}
