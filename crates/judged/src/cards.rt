// The calls on cards, as the lines give them. There is a left card and a right one; `make` puts a new one on the right.
use card::{Card, Made};
use search::State;
use test_examples::notation::{number, stretch, word};
use test_examples::pattern;
use test_reference::places::{byte_at, part};
use test_tally::{Answer, Tally, held, row};
use text::refusal::Refusal;
use text::strand::Strand;

// PATTERN STRETCH: the card of a stretch, or of no segments where it is a dash.
pub fn of(line: &[u8]) -> Made {
    // Stays a buffer with its length: a stretch that has no room here is not one of no bytes.
    let mut bytes = [0u8; Card::GREATEST_STRETCH + 1];
    let n = stretch(&mut bytes, word(line, 2), 2);
    let (p, strand) = pattern(line);
    if n == 0 {
        return Card::empty(p, strand);
    }
    Card::of(p, strand, part(&bytes, 0, n))
}

// A card is to have the rows of another.
pub fn rows(tally: &mut Tally, group: usize, made: &Made, wanted: &Made) {
    for q in 0..Card::GREATEST_PATTERN {
        tally.compare(group, row(made, q), row(wanted, q));
    }
}

// A card that is to be refused, and all zeros.
fn refused(tally: &mut Tally, group: usize, made: &Made, number: u64, place: usize) {
    let none = Card {
        pattern: [0; Card::GREATEST_PATTERN],
        m: 0,
        segments: 0,
        exits: [0; Card::GREATEST_PATTERN],
        firsts: [0; Card::GREATEST_PATTERN],
    };
    let m = Answer::told(made.card.m as usize, 0, 0);
    let named = held(m, &made.card.pattern, &none.pattern);
    tally.compare(group, named, Answer::told(0, 0, 0));
    let wanted = Made {
        refusal: Refusal { number, place },
        card: none,
    };
    rows(&mut *tally, group, made, &wanted);
}

// A card whose row q is to be so, or that is to be refused.
pub fn compare(tally: &mut Tally, group: usize, made: &Made, q: usize, wanted: Answer) {
    if wanted.number != 0 {
        return refused(&mut *tally, group, made, wanted.number, wanted.place);
    }
    tally.compare(group, row(made, q), wanted);
}

// The cards on the left and on the right.
#[derive(Clone, Copy)]
pub struct Cards {
    pub left: Card,
    pub right: Made,
}

impl Cards {
    // Before the first line: of A and no segments.
    pub fn new() -> Cards {
        let right = Card::empty(b"A", Strand::Given);
        Cards {
            left: right.card,
            right,
        }
    }

    // make: what was on the right is on the left then.
    pub fn make(&mut self, line: &[u8]) {
        self.left = self.right.card;
        self.right = of(line);
    }

    // The join of both.
    pub fn joined(&self) -> Made {
        self.left.join(self.right.card)
    }

    // What the right card makes of the state of these bits.
    pub fn ask(&self, bits: usize) -> Answer {
        Answer::from(self.right.card.ask(State { bits: bits as u64 }))
    }

    // broken: the right card is malformed. It is refused on the right of a join, on the left, on both sides, and asked; the left one
    // is refused first, and a state that is none is not asked for.
    pub fn broken(&self, tally: &mut Tally, group: usize) {
        let card = self.right.card;
        refused(&mut *tally, group, &self.joined(), 11, 1);
        refused(&mut *tally, group, &card.join(self.left), 11, 0);
        refused(&mut *tally, group, &card.join(card), 11, 0);
        let wanted = Answer::refused(11, 0);
        tally.compare(group, self.ask(1), wanted);
        tally.compare(group, self.ask(0), wanted);
    }

    // put m segments COUNT, put base i BASE, put row q exit first: the right card with other fields.
    pub fn put(&mut self, line: &[u8]) {
        let card = &mut self.right.card;
        let a = number(line, 2);
        let b = number(line, 3);
        let place = a % Card::GREATEST_PATTERN;
        match byte_at(line, 4) {
            b'm' => {
                card.m = (a % 256) as u8;
                card.segments = (b % 4294967296) as u32;
            }
            b'b' => {
                card.pattern[place] = byte_at(word(line, 3), 0);
            }
            _ => {
                card.exits[place] = b as u64;
                card.firsts[place] = (number(line, 4) % 4294967296) as u32;
            }
        }
    }
}
