// The two searches of a pattern in one stretch, from the fresh state: by bit-vectors and by border tables.
ghost use Rattle.std.specs.Prelude.{◌≡◌, length};
ghost use Rattle.text.specs.Refusal.{ok, after, outcome};
ghost use Rattle.text.specs.State.{fresh, marks_from};
ghost use Rattle.text.specs.Strand.{on_strand};
ghost use Rattle.layout.specs.Bytes.{left_by};
ghost use Rattle.search.specs.Answers.{searching, sums_marked, sums_of, told_searched, told_marked, sums, marked, seeking, seen_from};

use crate::borders::border_table;
use crate::entry::enter;
use crate::marking::{Marked, mark};
use crate::method::ByBorders;
use crate::state::State;
use text::Refusal;
use text::strand::{Strand, read_on};

// The segment count, the size and the number of ones among the marks.
// Stays an enum of its own: its name and shape are fixed.
#[derive(Clone, Copy)]
pub enum Searched {
    Marked {
        segments: usize,
        size: usize,
        ends: usize,
    },
    Refused(Refusal),
}

// What a search from the fresh state tells, without the state after the stretch: of one strand or of both.
impl<S: Copy> From<Result<Marked<S>, Refusal>> for Searched {
    fn from(marked: Result<Marked<S>, Refusal>) -> Searched
        ensures { told_searched result ≡ after (outcome marked) (λ x. ok (sums_marked x)) }
    {
        match marked {
            Ok(marked) => Searched::Marked {
                segments: marked.segments,
                size: marked.size,
                ends: marked.ends,
            },
            Err(refused) => Searched::Refused(refused),
        }
    }
}

// The search by bit-vectors, of the pattern as the strand reads it: refusals 1, 2, 3, those of the stretch, then 10. It writes 1 or 0 for
// each segment; further bytes stay, and a refusal changes nothing.
pub fn by_bits(pattern: &[u8], strand: Strand, stretch: &[u8], marks: &mut [u8]) -> Searched
    ensures result_value { told_searched result ≡ after (searching pattern.now stretch.now (length marks.old))
        (λ t. ok (sums_of (on_strand strand pattern.now) t)) }
    ensures marks_after { marks.new ≡ left_by (marked (on_strand strand pattern.now))
        (searching pattern.now stretch.now (length marks.old)) marks.old }
{
    Searched::from(State::FRESH.marked(pattern, strand, stretch, &mut *marks))
}

// The search by border tables: the same promise.
pub fn by_borders(pattern: &[u8], strand: Strand, stretch: &[u8], marks: &mut [u8]) -> Searched
    ensures result_value { told_searched result ≡ after (searching pattern.now stretch.now (length marks.old))
        (λ t. ok (sums_of (on_strand strand pattern.now) t)) }
    ensures marks_after { marks.new ≡ left_by (marked (on_strand strand pattern.now))
        (searching pattern.now stretch.now (length marks.old)) marks.old }
{
    Searched::from(marked_by_borders(pattern, strand, stretch, &mut *marks))
}

// The same as a result, with the state after the stretch.
fn marked_by_borders(
    pattern: &[u8],
    strand: Strand,
    stretch: &[u8],
    marks: &mut [u8],
) -> Result<Marked<State>, Refusal>
    ensures result_value { told_marked result ≡ after (seeking pattern.now fresh stretch.now (length marks.old))
        (λ t. ok (seen_from (on_strand strand pattern.now) fresh t)) }
    ensures marks_after { marks.new ≡ left_by (marks_from (on_strand strand pattern.now) fresh)
        (seeking pattern.now fresh stretch.now (length marks.old)) marks.old }
{
    enter(pattern, State::FRESH, stretch)?;
    let m = pattern.len();
    let bytes = read_on(strand, pattern);
    let read = &bytes[..m];
    let table = border_table(read);
    let by = ByBorders {
        pattern: read,
        borders: &table,
    };
    mark(by, State::FRESH, stretch, &mut *marks)
}
