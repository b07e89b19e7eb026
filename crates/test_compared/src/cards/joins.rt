// A text in two parts: their cards joined, and what cards make of the states before their parts.
use crate::NONE;
use crate::cards::compare_rows;
use card::Card;
use search::State;
use test_random::Case;
use test_random::drawn::{below, stretch};
use test_reference::{Bytes, Ran, run};
use test_tally::{Answer, Tally};
use text::strand::Strand;

// The group of the joins.
const JOINS: usize = 1;

// What comes of a set of lengths in a stretch.
fn found(p: &[u8], bytes: &[u8], bits: u64) -> Ran {
    let segments = test_reference::stretch(bytes).map_or(0, |sound| sound.segments);
    run(p, bytes, segments, bits)
}

// What the card of a text makes of a state is what is found.
fn ask(tally: &mut Tally, p: &[u8], bytes: &[u8], bits: u64) {
    let found = found(p, bytes, bits);
    let wanted = Answer::told(found.bits as usize, found.first.unwrap_or(NONE), 0);
    let made = Card::of(p, Strand::Given, bytes);
    tally.compare(JOINS, Answer::from(made.card.ask(State { bits })), wanted);
}

// A text, asked whole, and cut after some of its segments: its parts are asked with the states before them, and joined.
pub fn compare(tally: &mut Tally, case: &Case) {
    let p = case.read.as_slice();
    let bytes = case.bytes.as_slice();
    ask(&mut *tally, p, bytes, 1);
    let segments = case.segments();
    let cut = below(case.number, 800, segments.wrapping_add(1));
    let left = Bytes::<2048>::put(|out| stretch(out, bytes, 0, cut));
    let right = Bytes::<2048>::put(|out| stretch(out, bytes, cut, segments));
    ask(&mut *tally, p, left.as_slice(), 1);
    let middle = found(p, left.as_slice(), 1);
    ask(&mut *tally, p, right.as_slice(), middle.bits);
    let front = Card::of(p, Strand::Given, left.as_slice());
    let back = Card::of(p, Strand::Given, right.as_slice());
    let joined = front.card.join(back.card);
    compare_rows(&mut *tally, JOINS, p, bytes, case.verdict, &joined);
}
