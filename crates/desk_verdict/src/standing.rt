// Where a withheld sequence stands after the stretches of a text that were searched so far, and how one more stretch moves it.
ghost use Rattle.std.specs.Prelude.{◌≡◌, length};
ghost use Rattle.text.specs.Refusal.{ok, after};
ghost use Rattle.layout.specs.Bytes.{left_by};
ghost use Rattle.text.specs.Refusal.{outcome};
ghost use Rattle.desk_verdict.specs.Standing.{begun, passing, behind, both_marks};

use crate::sum::plus;
use search::{Pair, SoughtBoth};
use text::Refusal;

// What is carried on either strand, the number of segments, and the number of those in which the sequence ends on either.
#[derive(Clone, Copy)]
pub struct Standing {
    pub state: Pair,
    pub segments: u64,
    pub ends: u64,
}

impl Standing {
    // Nothing is searched yet.
    pub fn begun() -> Standing
        ensures { result ≡ begun }
    {
        Standing {
            state: Pair::FRESH,
            segments: 0,
            ends: 0,
        }
    }
}

// The segment count of a stretch, and where the sequence stands after it.
#[derive(Clone, Copy)]
pub struct Passed {
    pub segments: usize,
    pub standing: Standing,
}

// Searches one more stretch on both strands at once, each from where it stands, and marks the segments in which the sequence ends on
// either. A refusal is that of the search, and leaves the marks as they were.
pub fn pass(
    pattern: &[u8],
    standing: Standing,
    stretch: &[u8],
    marks: &mut [u8],
) -> Result<Passed, Refusal>
    ensures result_value { outcome result ≡ after (passing pattern.now standing stretch.now (length marks.old))
        (λ t. ok (behind pattern.now standing t)) }
    ensures marks_after { marks.new ≡ left_by (both_marks pattern.now standing)
        (passing pattern.now standing stretch.now (length marks.old)) marks.old }
{
    let before = standing.state;
    match before.through(pattern, stretch, &mut *marks) {
        SoughtBoth::Refused(refused) => Err(refused),
        SoughtBoth::Marked {
            segments,
            size: _,
            ends,
            state,
        } => {
            let all = plus(standing.segments, segments as u64);
            let marked = plus(standing.ends, ends as u64);
            Ok(Passed {
                segments,
                standing: Standing {
                    state,
                    segments: all,
                    ends: marked,
                },
            })
        }
    }
}
