// Compares the searches, by bit-vectors and by border tables, with a search straight from the definitions, on random texts and on damaged
// stretches, on each strand. Counts what was seen, and how often was compared.
use crate::refused;
use search::{Searched, by_bits, by_borders};
use test_random::{Case, STRETCHES, is_damaged};
use test_reference::places::put_part;
use test_reference::{Ran, run};
use test_tally::{Answer, Tally, held_in};

// The groups of a tally. Group n counts the random texts that were refused with number n, 0 for accepted, and so does
// DAMAGED | n for damaged stretches; SEGMENTS and MARKED, the segments of the accepted ones and how many of them are marked.
// They stay numbers: a tally counts by them.
const WHOLE: usize = 0;

const DAMAGED: usize = 32;

const SEGMENTS: usize = 18;

const MARKED: usize = 19;

// What is compared.
const SEARCHES: usize = 54;

pub const NAMES: &[u8] =
    b"random texts accepted\n\n\n\n\n\n\n\nrandom texts refused with 8\n\n\n\n\n\n\n\n\n\nsegments of random texts\n\
    marked ones of them\n\n\n\n\n\n\n\n\n\n\n\n\ndamaged stretches accepted\ndamaged stretches refused with 1\n\
    damaged stretches refused with 2\ndamaged stretches refused with 3\n\ndamaged stretches refused with 5\n\
    damaged stretches refused with 6\ndamaged stretches refused with 7\ndamaged stretches refused with 8\n\
    damaged stretches refused with 9\n\n\n\n\n\n\n\n\nsegments of damaged stretches\nmarked ones of them\n\n\n\
    searches, by bit-vectors and by border tables\n";

// What was seen of a case.
fn see(tally: &mut Tally, case: &Case, found: &Ran) {
    let kind = if is_damaged(case.number) {
        DAMAGED
    } else {
        WHOLE
    };
    let number = match case.verdict {
        Ok(_) => 0,
        Err(wrong) => wrong.refusal as usize,
    };
    tally.more(kind | number, 1);
    tally.more(kind | SEGMENTS, case.segments());
    tally.more(kind | MARKED, found.ends);
}

// A search of a case is to leave these marks, and what stood after, and to tell so many ends.
pub fn sought<F: FnOnce(&mut [u8]) -> Searched>(
    tally: &mut Tally,
    group: usize,
    case: &Case,
    wanted: &[u8],
    ends: usize,
    search: F,
)
    requires { F.IsAlwaysCallable search }
{
    let answer = held_in::<40, _, _>(
        7,
        |left| put_part(left, 0, wanted),
        |marks| Answer::from(search(marks)),
    );
    let told = case.verdict.map_or_else(refused, |sound| {
        Answer::told(sound.segments, sound.size, ends)
    });
    tally.compare(group, answer, told);
}

// A case, searched on its strand. What was seen is counted on the given one.
pub fn compare(tally: &mut Tally, case: &Case) {
    let p = case.given.as_slice();
    let stretch = case.bytes.as_slice();
    let found = run(case.read.as_slice(), stretch, case.segments(), 1);
    let (marks, ends) = (found.marks(), found.ends);
    sought(&mut *tally, SEARCHES, case, marks, ends, |marks| {
        by_bits(p, case.strand, stretch, marks)
    });
    sought(&mut *tally, SEARCHES, case, marks, ends, |marks| {
        by_borders(p, case.strand, stretch, marks)
    });
    if case.number < STRETCHES {
        see(&mut *tally, case, &found);
    }
}
