// Compares the calls on watch lists with a search of each record straight from the definitions, on random texts and on damaged stretches.
use crate::{NONE, refused};
use test_lists::List;
use test_random::drawn::{below, seed};
use test_random::{Case, pattern, spoil};
use test_reference::places::{part, put, put_part};
use test_reference::{Bytes, Sound, Wrong, run};
use test_tally::{Answer, Tally, held_in, lent};

// The group of the lists.
const LISTS: usize = 0;

pub const NAMES: &[u8] = b"watch lists\n";

// How many records: mostly a few, at times as many as there may be, or one more.
fn records(seed: u64) -> usize {
    match below(seed, 800, 16) {
        0 => 33,
        1 => 32,
        _ => below(seed, 801, 7),
    }
}

// Puts the pattern of record k, random and for a text, and in one list of three one that may be spoilt. Tells how many bases it has.
fn draw(out: &mut [u8], text: &[u8], k: usize, list: u64) -> usize {
    let own = seed(list, k.wrapping_add(900));
    let m = pattern(&mut *out, text, own);
    if below(list, 802, 3) != 0 {
        return m;
    }
    spoil(&mut *out, m, own)
}

// What is to be found in records: the first wrong one; the first that ends, by its label, which is 100 more than its number, and the
// segment; and the marks.
#[derive(Clone, Copy)]
struct Known {
    wrong: Option<usize>,
    first: Option<Answer>,
    marks: [u8; 40],
}

impl Known {
    // Record k, in that many segments of a stretch.
    fn add(&mut self, k: usize, p: &[u8], bytes: &[u8], segments: usize) {
        if test_reference::pattern(p).is_err() {
            self.wrong = self.wrong.or(Some(k));
            return;
        }
        if let Some(segment) = run(p, bytes, segments, 1).first {
            put(&mut self.marks, k, 1);
            let told = Answer::told(k.wrapping_add(100), segment, 0);
            self.first = self.first.or(Some(told));
        }
    }

    // What is to be found in n of them, in a stretch of which that is to be said. The first that is wrong comes before a refusal of the
    // stretch, and after too many records.
    fn answer(&self, n: usize, alone: Result<Sound, Wrong>) -> Answer {
        if 32 < n {
            return Answer::refused(20, 0);
        }
        match (self.wrong, alone) {
            (Some(k), _) => Answer::refused(21, k),
            (None, Err(wrong)) => refused(wrong),
            (None, Ok(_)) => self.first.unwrap_or(Answer::told(0, NONE, 0)),
        }
    }
}

// What the marks are to answer where that is to be found, in so much room.
fn marked(first: Answer, n: usize, room: usize) -> Answer {
    if first.number != 0 {
        return first;
    }
    if room < n {
        return Answer::refused(10, 0);
    }
    Answer::told(0, 0, 0)
}

// A list of patterns for a text, on that text or on what it is damaged to: both calls are to say what is to be found, and these marks are
// to be left, or nothing where they are refused.
pub fn compare(tally: &mut Tally, case: &Case) {
    let bytes = case.bytes.as_slice();
    let alone = test_reference::stretch(bytes);
    let segments = alone.map_or(0, |sound| sound.segments);
    let drawn = seed(case.number, 805);
    let mut list = List::empty();
    let mut known = Known {
        wrong: None,
        first: None,
        marks: [0; 40],
    };
    for k in 0..records(drawn) {
        let bases = Bytes::<65>::put(|out| draw(out, case.text.as_slice(), k, drawn));
        list.push(bases.as_slice(), k.wrapping_add(100) as u64);
        known.add(k, bases.as_slice(), bytes, segments);
    }
    let first = known.answer(list.n, alone);
    let room = if below(drawn, 803, 4) == 0 {
        below(drawn, 804, 41)
    } else {
        40
    };
    let wanted = marked(first, list.n, room);
    let n = if wanted.number == 0 { list.n } else { 0 };
    let answer = held_in::<40, _, _>(
        7,
        |left| put_part(left, 0, part(&known.marks, 0, n)),
        |marks| lent(marks, room, |lent| Answer::from(list.mark(bytes, lent))),
    );
    tally.compare(LISTS, Answer::from(list.first(bytes)), first);
    tally.compare(LISTS, answer, wanted);
}
