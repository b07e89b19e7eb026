// The test of a card: whether it is as document 01 says, or malformed.
ghost use Rattle.std.specs.Prelude.{◌≡◌, ℕ, ◌<◌, ◌≤◌};
ghost use Rattle.text.specs.Bits.{low};
ghost use Rattle.text.specs.Refusal.{greatest_pattern};
ghost use Rattle.text.specs.Card.{is_row, are_rows, well_formed, same_pattern};
ghost use Rattle.card.specs.Held.{rows_in};
ghost use Rattle.card.specs.Cards.{card_in, row_in, is_padded, IsTest};

use crate::cards::Card;
use crate::follow::Row;
use text::pattern::check;
use text::state::low;
use text::strand::{Strand, read_on};

impl Row {
    // Whether it is as document 01 says of row q, below m, of a card of m bases and that many segments; `all` has the lowest m bits set.
    fn is_live(self, q: usize, all: u64, segments: u32) -> bool
        ensures { (m : ℕ) → all ≡ low m → q < m → result ≡ is_row m segments q (row_in self) }
    {
        let odd = self.exit % 2 == 1;
        let within = self.exit <= all;
        let ends = (self.first == Card::NONE) | (self.first < segments);
        (odd == (q == 0)) & within & ends
    }

    // Whether it is as document 01 says of those from m up: nothing leaves it, and nothing ends in it.
    fn is_idle(self) -> bool
        ensures { (m n q : ℕ) → m ≤ q → result ≡ is_row m n q (row_in self) }
    {
        (self.exit == 0) & (self.first == Card::NONE)
    }
}

impl Card {
    // Whether its first m bytes are a pattern, and the others 0.
    fn is_padded(&self) -> bool
        requires { self.now.m ≤ greatest_pattern }
        ensures { result ≡ is_padded self.now.pattern self.now.m }
    {
        let bases = &self.pattern[..self.m as usize];
        check(bases).is_ok() && self.pattern == read_on(Strand::Given, bases)
    }

    // Whether the rows below m are as document 01 says. No branch depends on a row, so that the compiler tests several at once.
    fn are_rows_below(&self) -> bool
        requires { self.now.m ≤ greatest_pattern }
        ensures { IsTest self.now.m self.now.segments (rows_in self.now.exits self.now.firsts) 0 self.now.m result }
    {
        let m = self.m as usize;
        let all = low(m);
        let mut sound = true;
        for q in 0..m {
            let right = self.row(q).is_live(q, all, self.segments);
            sound = sound & right;
        }
        sound
    }

    // Whether those from m up are, without a branch either.
    fn are_rows_behind(&self) -> bool
        requires { self.now.m ≤ greatest_pattern }
        ensures { (n : ℕ) → IsTest self.now.m n (rows_in self.now.exits self.now.firsts) self.now.m greatest_pattern result }
    {
        let mut sound = true;
        for q in self.m as usize..Card::GREATEST_PATTERN {
            let right = self.row(q).is_idle();
            sound = sound & right;
        }
        sound
    }

    // Whether all 64 rows are.
    fn are_rows(&self) -> bool
        requires { self.now.m ≤ greatest_pattern }
        ensures { result ≡ are_rows self.now.m self.now.segments 0 (rows_in self.now.exits self.now.firsts) }
    {
        self.are_rows_below() & self.are_rows_behind()
    }

    // Whether it is not malformed.
    pub(crate) fn is_well_formed(&self) -> bool
        ensures { result ≡ well_formed (card_in self.now) }
    {
        if Card::GREATEST_PATTERN < self.m as usize {
            return false;
        }
        if !self.is_padded() {
            return false;
        }
        if Card::MOST_SEGMENTS < self.segments {
            return false;
        }
        self.are_rows()
    }

    // Whether it is of the same pattern as another.
    pub(crate) fn has_pattern_of(&self, other: &Card) -> bool
        ensures { result ≡ same_pattern (card_in self.now) (card_in other.now) }
    {
        self.m == other.m && self.pattern == other.pattern
    }
}
