// The feed, segment by segment, each from the state that the one before it leads to.
use search::State;
use test_random::Case;
use test_random::drawn::segments;
use test_reference::places::segment_at;
use test_reference::through;
use test_tally::{Answer, Tally};

// The group of the feeds.
const FEEDS: usize = 0;

// Each segment of a text, alone, is to lead to the state that is found.
pub fn compare(tally: &mut Tally, case: &Case) {
    let bytes = case.bytes.as_slice();
    let mut bits = 1;
    for j in 0..case.segments() {
        let state = State { bits };
        let fed = state.feed(
            case.given.as_slice(),
            case.strand,
            segments(bytes, j, j + 1),
        );
        let step = through(case.read.as_slice(), bytes, segment_at(bytes, j), bits);
        let wanted = Answer::told(step.bits as usize, step.ends as usize, 0);
        tally.compare(FEEDS, Answer::from(fed), wanted);
        bits = step.bits;
    }
}
