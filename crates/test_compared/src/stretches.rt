// Compares the calls on stretches alone with a reader straight from the definitions, on random texts and on damaged stretches: the check,
// the read at every variant, and the write.
mod reads;
mod writes;

use crate::refused;
use test_random::{Case, is_damaged};
use test_tally::{Answer, Tally};

// The group of the checks.
const CHECKS: usize = 0;

pub const NAMES: &[u8] = b"checks\nreads, at every variant\nwrites\n";

// A stretch, checked and read; and written again, but for a damaged one that is refused.
pub fn compare(tally: &mut Tally, case: &Case) {
    let bytes = case.bytes.as_slice();
    let verdict = test_reference::stretch(bytes);
    let wanted = verdict.map_or_else(refused, |sound| {
        Answer::told(sound.segments, sound.size, 0)
    });
    tally.compare(CHECKS, Answer::from(stretch::check(bytes)), wanted);
    reads::compare(&mut *tally, bytes, verdict);
    if verdict.is_ok() || !is_damaged(case.number) {
        writes::compare(&mut *tally, bytes, verdict);
    }
}
