// Compares the calls that go on from a state with a search straight from the definitions, on random texts and on damaged stretches: the
// feed, segment by segment, and the search of a text that is cut.
mod cuts;
mod feeds;

use test_random::Case;
use test_tally::Tally;

pub const NAMES: &[u8] =
    b"feeds, segment by segment\nsearches from a state, cut at every segment\n";

// A case. Only a text that is accepted is cut.
pub fn compare(tally: &mut Tally, case: &Case) {
    feeds::compare(&mut *tally, case);
    if case.verdict.is_ok() {
        cuts::compare(&mut *tally, case);
    }
}
