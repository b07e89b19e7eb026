// Compares the search on both strands at once with a search of each strand straight from the definitions, on random texts, whole and cut in
// two, and on damaged stretches: what is marked is what is found on either strand.
mod pairs;

use crate::searches::sought;
use search::{Pair, either};
use test_random::Case;
use test_reference::places::{part, unite};
use test_reference::run;
use test_tally::Tally;

// The group of the searches.
const EITHER: usize = 0;

pub const NAMES: &[u8] = b"searches on both strands\n";

// A case, whose pattern is read on the opposite strand and as it is given.
pub fn compare(tally: &mut Tally, case: &Case) {
    let p = case.given.as_slice();
    let stretch = case.bytes.as_slice();
    let segments = case.segments();
    let given = run(p, stretch, segments, 1);
    let opposite = run(case.read.as_slice(), stretch, segments, 1);
    let mut row = given.row;
    let ends = unite(&mut row, &opposite.row);
    let marks = part(&row, 0, segments);
    sought(&mut *tally, EITHER, case, marks, ends, |out| {
        either(p, stretch, out)
    });
    if case.verdict.is_ok() {
        let states = Pair {
            given: given.bits,
            opposite: opposite.bits,
        };
        pairs::compare(&mut *tally, case, states, marks);
    }
}
