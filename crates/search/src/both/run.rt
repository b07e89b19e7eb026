// The run over the segments of a walk, on both strands at once: a segment is marked when an occurrence ends in it on either.
ghost use Rattle.std.specs.Prelude.{◌≡◌, ◌≤◌, length};
ghost use Rattle.text.specs.Refusal.{ok, after};
ghost use Rattle.text.specs.Strand.{opposite};
ghost use Rattle.layout.specs.Reading.{segments_of};
ghost use Rattle.layout.specs.Walk.{Begun, most_ahead};
ghost use Rattle.search.specs.Answers.{MarksOf};
ghost use Rattle.search.specs.Masks.{StateOf};
ghost use Rattle.search.specs.Either.{evens, odds, Vectors, either_from, seen_both, told_marked_both};

use crate::both::words::Pair;
use crate::marking::Marked;
use layout::walk::Walk;
use text::Refusal;

// Takes the states over the segments of a walk that begins, up to its end, and puts their marks into `marks`. A refusal may leave some
// there, so they are not the caller's yet.
pub fn run_both(
    pattern: &[u8],
    table: &[u64; 512],
    classes: &[u8; 256],
    state: Pair,
    stretch: &[u8],
    walk: Walk,
    marks: &mut [u8],
) -> Result<Marked<Pair>, Refusal>
    requires vectors { Vectors pattern.now (evens table.now) classes.now
        × Vectors (opposite pattern.now) (odds table.now) classes.now }
    requires state_of { StateOf pattern.now state.given × StateOf (opposite pattern.now) state.opposite }
    requires begun { Begun stretch.now walk × (most_ahead stretch.now walk ≤ length marks.old) }
    ensures result_value { told_marked_both result ≡ after (segments_of stretch.now walk.count walk.at)
        (λ t. ok (seen_both pattern.now state.given state.opposite t)) }
    ensures marks_of { MarksOf (either_from pattern.now state.given state.opposite)
        (segments_of stretch.now walk.count walk.at) marks.new }
{
    let mut walked = walk;
    let mut ends = 0;
    let mut reached = state;
    // Stays a while: the walk counts the segments, and each step may refuse.
    while walked.passed < walked.count {
        let passed = reached.over(pattern, table, classes, stretch, walked.at)?;
        let hit = passed.given | passed.opposite;
        marks[walked.passed] = hit as u8;
        walked = walked.past(passed.next, passed.size);
        ends += hit as usize;
        reached = passed.state;
    }
    walked.end(stretch)?;
    Ok(Marked {
        segments: walked.passed,
        size: walked.size,
        ends,
        state: reached,
    })
}
