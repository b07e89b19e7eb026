// A text cut after each of its segments into two stretches: the search of the second goes on from the state after the first, and both
// together mark what the whole text has, on the way across the cut too.
use crate::parts::{Come, parted};
use search::{Sought, State};
use test_random::Case;
use test_reference::places::put_part;
use test_reference::run;
use test_tally::{Answer, Tally, held_in};
use text::refusal::Refusal;

// The group of the cuts.
const CUTS: usize = 1;

// A text cut after that many of its segments.
fn cut_at(case: &Case, cut: usize, marks: &mut [u8]) -> Result<Come<State>, Refusal> {
    parted(case, cut, State::FRESH, marks, |state, stretch, marks| {
        match state.through(case.given.as_slice(), case.strand, stretch, marks) {
            Sought::Refused(wrong) => Err(wrong),
            Sought::Marked {
                segments,
                size: _,
                ends,
                state,
            } => Ok(Come {
                segments,
                ends,
                state,
            }),
        }
    })
}

// What the parts told.
fn told(parts: Result<Come<State>, Refusal>) -> Answer {
    match parts {
        Ok(come) => Answer::told(come.segments, come.state.bits as usize, come.ends),
        Err(refusal) => Answer::from(refusal),
    }
}

// A text cut after each of its segments, and before the first, compared with what is found in the whole.
pub fn compare(tally: &mut Tally, case: &Case) {
    let segments = case.segments();
    let found = run(case.read.as_slice(), case.bytes.as_slice(), segments, 1);
    let wanted = Answer::told(segments, found.bits as usize, found.ends);
    for cut in 0..=segments {
        let answer = held_in::<40, _, _>(
            7,
            |left| put_part(left, 0, found.marks()),
            |marks| told(cut_at(case, cut, marks)),
        );
        tally.compare(CUTS, answer, wanted);
    }
}
