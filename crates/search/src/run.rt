// The run over the segments of a walk, one for both methods: each variant is checked and stepped over at once. It keeps the marks of all
// segments, or stops after the first in which an occurrence ends and keeps none.
ghost use Rattle.std.specs.Prelude.{◌≡◌, true, false, cond, ◌≤◌, ◌<◌, length, set};
ghost use Rattle.text.specs.Refusal.{ok, after};
ghost use Rattle.text.specs.State.{marks_from};
ghost use Rattle.text.specs.Card.{none};
ghost use Rattle.layout.specs.Reading.{segments_of};
ghost use Rattle.layout.specs.Walk.{Begun, most_ahead};
ghost use Rattle.search.specs.Answers.{seen_from, told_marked, MarksOf};
ghost use Rattle.search.specs.First.{hitting_from, told_hit, Few};
ghost use Rattle.search.specs.Masks.{StateOf};

use crate::marking::Marked;
use crate::method::Method;
use crate::state::State;
use layout::walk::Walk;
use text::Refusal;

// Puts a mark into its place, where the run does not stop.
fn keep(stop: bool, mark: u8, k: usize, marks: &mut [u8])
    requires { stop ≡ false → k < length marks.old }
    ensures { marks.new ≡ cond stop marks.old (set marks.old k mark) }
{
    if !stop {
        marks[k] = mark;
    }
}

// Takes a state over the segments of a walk that begins, up to its end, and puts their marks into `marks`; or stops at the first end, puts
// none, and what stands after is not looked at. A refusal may leave some marks, so they are not the caller's yet. The step over a segment
// is called here alone: the compiler then makes it part of the loop, and each segment is spared a call.
pub fn run<M: Method>(
    stop: bool,
    method: M,
    state: State,
    stretch: &[u8],
    walk: Walk,
    marks: &mut [u8],
) -> Result<Marked<State>, Refusal>
    requires tools { M.founded method × StateOf (M.pattern method) state.bits }
    requires begun { Begun stretch.now walk × (most_ahead stretch.now walk ≤ none) }
    requires walk_in_bounds { stop ≡ false → most_ahead stretch.now walk ≤ length marks.old }
    ensures result_value { stop ≡ true
        → (told_hit result ≡ hitting_from (M.pattern method) state.bits stretch.now walk.count walk.at) × Few result }
    ensures result_value_2 { stop ≡ false → told_marked result ≡ after (segments_of stretch.now walk.count walk.at)
        (λ t. ok (seen_from (M.pattern method) state.bits t)) }
    ensures marks_of { stop ≡ false → MarksOf (marks_from (M.pattern method) state.bits)
        (segments_of stretch.now walk.count walk.at) marks.new }
{
    let mut walked = walk;
    let mut ends = 0;
    let mut reached = state;
    // Stays a while: the walk counts the segments, and each step may refuse.
    while walked.passed < walked.count {
        let passed = reached.over(method, stretch, walked.at)?;
        keep(stop, passed.ends as u8, walked.passed, &mut *marks);
        walked = walked.past(passed.next, passed.size);
        ends += passed.ends as usize;
        reached = passed.state;
        if stop & passed.ends {
            return Ok(Marked {
                segments: walked.passed,
                size: walked.size,
                ends,
                state: reached,
            });
        }
    }
    walked.end(stretch)?;
    Ok(Marked {
        segments: walked.passed,
        size: walked.size,
        ends,
        state: reached,
    })
}
