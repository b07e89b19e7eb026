// A text cut in two and searched on both strands at once: the search of the second stretch goes on from the states after the first, and
// both together mark what either strand has in the whole text.
use crate::parts::{Come, parted};
use crate::strands::EITHER;
use search::{Pair, SoughtBoth};
use test_random::Case;
use test_reference::places::put_part;
use test_tally::{Answer, Tally, held_in};
use text::refusal::Refusal;

// The states before the first segment.
const FRESH: Pair = Pair {
    given: 1,
    opposite: 1,
};

// A text cut in its middle.
fn halved(case: &Case, marks: &mut [u8]) -> Result<Come<Pair>, Refusal> {
    let cut = case.segments() / 2;
    parted(case, cut, FRESH, marks, |states, stretch, marks| {
        match states.through(case.given.as_slice(), stretch, marks) {
            SoughtBoth::Refused(wrong) => Err(wrong),
            SoughtBoth::Marked {
                segments,
                size: _,
                ends,
                state,
            } => Ok(Come {
                segments,
                ends,
                state,
            }),
        }
    })
}

// What so many segments and these states tell.
fn told(segments: usize, states: Pair) -> Answer {
    Answer::told(segments, states.given as usize, states.opposite as usize)
}

// A text cut in its middle is to tell these states, and to leave these marks.
pub fn compare(tally: &mut Tally, case: &Case, states: Pair, wanted: &[u8]) {
    let answer = held_in::<40, _, _>(
        7,
        |left| put_part(left, 0, wanted),
        |marks| match halved(case, marks) {
            Ok(come) => told(come.segments, come.state),
            Err(refusal) => Answer::from(refusal),
        },
    );
    tally.compare(EITHER, answer, told(case.segments(), states));
}
