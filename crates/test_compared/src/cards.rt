// Compares cards, row by row, with a search straight from the definitions, on random texts and on damaged stretches: the cards of texts,
// those of two parts joined, and what they tell of states.
mod joins;

use crate::{NONE, refused};
use card::{Card, Made};
use test_random::{Case, STRETCHES};
use test_reference::places::put_part;
use test_reference::{Sound, Wrong, run};
use test_tally::{Answer, Tally, held, row};

// The group of the cards.
const CARDS: usize = 0;

pub const NAMES: &[u8] = b"cards, row by row\njoins of two parts, and what cards tell of states\n";

// What row q is to be: what comes of the lone length q, or of none from m up.
fn wanted(p: &[u8], bytes: &[u8], verdict: Result<Sound, Wrong>, q: usize) -> Answer {
    let lone = if q < p.len() { 1 << q % 64 } else { 0 };
    verdict.map_or_else(refused, |sound| {
        let found = run(p, bytes, sound.segments, lone);
        Answer::told(
            found.bits as usize,
            found.first.unwrap_or(NONE),
            sound.segments,
        )
    })
}

// A card is to have the pattern P, after it 0, and the rows of a text; a refused one is to be all zeros.
fn compare_rows(
    tally: &mut Tally,
    group: usize,
    p: &[u8],
    bytes: &[u8],
    verdict: Result<Sound, Wrong>,
    made: &Made,
) {
    let name = if verdict.is_ok() { p } else { &[] };
    let mut padded = [0u8; Card::GREATEST_PATTERN];
    put_part(&mut padded, 0, name);
    let m = Answer::told(made.card.m as usize, 0, 0);
    let named = held(m, &made.card.pattern, &padded);
    tally.compare(group, named, Answer::told(name.len(), 0, 0));
    for q in 0..Card::GREATEST_PATTERN {
        tally.compare(group, row(made, q), wanted(p, bytes, verdict, q));
    }
}

// A case. A text that is accepted is cut on the given strand.
pub fn compare(tally: &mut Tally, case: &Case) {
    let stretch = case.bytes.as_slice();
    let read = case.read.as_slice();
    let made = Card::of(case.given.as_slice(), case.strand, stretch);
    compare_rows(&mut *tally, CARDS, read, stretch, case.verdict, &made);
    if case.number < STRETCHES && case.verdict.is_ok() {
        joins::compare(&mut *tally, case);
    }
}
