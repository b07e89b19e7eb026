// The card and the calls on it.
ghost use Rattle.std.specs.Prelude.{◌≡◌, leb, length, true, false, IfOk, IfErr};
ghost use Rattle.layout.specs.Bytes.{greatest_stretch};
ghost use Rattle.text.specs.Card.{well_formed, join, ask};
ghost use Rattle.card.specs.Cards.{card_in};
ghost use Rattle.card.specs.Answers.{empty_on, carding_on, made, told_asked, held, shown};

use crate::answers::{Asked, Made};
use crate::follow::Row;
use crate::rows::{Rows, Summed, over};
use search::State;
use text::pattern::check;
use text::state::is_state;
use text::strand::{Strand, read_on};
use text::{Refusal, limits, refusal};

// What comes of each carried length: row q says what comes of a lone q carried in, row 0 of nothing carried in.
// Stays two arrays side by side: its names and shape are fixed.
#[derive(Clone, Copy)]
pub struct Card {
    pub pattern: [u8; Card::GREATEST_PATTERN],
    pub m: u8,
    pub segments: u32,
    pub exits: [u64; Card::GREATEST_PATTERN],
    pub firsts: [u32; Card::GREATEST_PATTERN],
}

// Whether a stretch is no longer than a stretch may be: asked before any room is made for its rows.
fn is_short(stretch: &[u8]) -> bool
    ensures { result ≡ leb (length stretch.now) greatest_stretch }
{
    stretch.len() <= Card::GREATEST_STRETCH
}

impl Card {
    // The most bases of a pattern.
    pub const GREATEST_PATTERN: usize = limits::GREATEST_PATTERN;
    // The most bytes of a stretch.
    pub const GREATEST_STRETCH: usize = limits::GREATEST_STRETCH;
    // The most segments of a card.
    pub const MOST_SEGMENTS: u32 = Card::NONE - 1;
    // The first end where none is.
    pub const NONE: u32 = limits::NO_SEGMENT as u32;

    // The card of no segments, of the pattern as the strand reads it: refusals 1, 2, 3 of the pattern as given.
    pub fn empty(pattern: &[u8], strand: Strand) -> Made
        ensures { result ≡ made (empty_on pattern.now strand) }
    {
        Made::from(Card::of_nothing(pattern, strand))
    }

    // The same as a result.
    fn of_nothing(pattern: &[u8], strand: Strand) -> Result<Card, Refusal>
        ensures { result ≡ held (empty_on pattern.now strand) }
    {
        check(pattern)?;
        let m = pattern.len();
        let Rows { exits, firsts } = Rows::lone(m);
        Ok(Card {
            pattern: read_on(strand, pattern),
            m: m as u8,
            segments: 0,
            exits,
            firsts,
        })
    }

    // The card of a stretch, of the pattern as the strand reads it: refusals 1, 2, 3 of the pattern as given, then those of the
    // stretch. It holds the pattern that the strand reads.
    pub fn of(pattern: &[u8], strand: Strand, stretch: &[u8]) -> Made
        ensures { result ≡ made (carding_on pattern.now strand stretch.now) }
    {
        Made::from(Card::of_stretch(pattern, strand, stretch))
    }

    // The same as a result.
    fn of_stretch(pattern: &[u8], strand: Strand, stretch: &[u8]) -> Result<Card, Refusal>
        ensures { result ≡ held (carding_on pattern.now strand stretch.now) }
    {
        check(pattern)?;
        if !is_short(stretch) {
            return Err(Refusal {
                number: refusal::STRETCH_LONG,
                place: 0,
            });
        }
        let m = pattern.len();
        let bytes = read_on(strand, pattern);
        let Summed { segments, rows } = over(&bytes[..m], stretch)?;
        let Rows { exits, firsts } = rows;
        Ok(Card {
            pattern: bytes,
            m: m as u8,
            segments,
            exits,
            firsts,
        })
    }

    // The card of two neighbours: refusals 11 of the left, 11 of the right, 12, 13.
    pub fn join(self, right: Card) -> Made
        ensures { result ≡ made (join (card_in self) (card_in right)) }
    {
        Made::from(self.joined_on(&right))
    }

    // The same as a result.
    fn joined_on(&self, right: &Card) -> Result<Card, Refusal>
        ensures { result ≡ held (join (card_in self.now) (card_in right.now)) }
    {
        self.check(0)?;
        right.check(1)?;
        if !self.has_pattern_of(right) {
            return Err(Refusal {
                number: refusal::PATTERNS_DIFFER,
                place: 0,
            });
        }
        if Card::MOST_SEGMENTS - self.segments < right.segments {
            return Err(Refusal {
                number: refusal::JOIN_LONG,
                place: 0,
            });
        }
        Ok(self.joined(right))
    }

    // What comes of a state: refusals 11, 17.
    pub fn ask(self, state: State) -> Asked
        ensures { told_asked result ≡ ask (card_in self) state.bits }
    {
        Asked::from(self.asked(state.bits))
    }

    // The same as a result.
    fn asked(&self, bits: u64) -> Result<Row, Refusal>
        ensures { shown result ≡ ask (card_in self.now) bits }
    {
        self.check(0)?;
        if !is_state(self.m as usize, bits) {
            return Err(Refusal {
                number: refusal::STATE_WRONG,
                place: 0,
            });
        }
        Ok(self.follow(bits))
    }

    // Refusal 11, with the place that is told.
    fn check(&self, place: usize) -> Result<(), Refusal>
        ensures { IfOk result (λ _. well_formed (card_in self.now) ≡ true)
            × IfErr result (λ r. (well_formed (card_in self.now) ≡ false) × (r ≡ record { number = 11; place = place })) }
    {
        if self.is_well_formed() {
            Ok(())
        } else {
            Err(Refusal {
                number: refusal::CARD_MALFORMED,
                place,
            })
        }
    }
}
