// Following: what the rows of a card make of a state.
ghost use Rattle.std.specs.Prelude.{◌≡◌, ◌<◌, get_or};
ghost use Rattle.text.specs.Refusal.{greatest_pattern};
ghost use Rattle.text.specs.Card.{follow};
ghost use Rattle.card.specs.Held.{row_of, rows_in};
ghost use Rattle.card.specs.Cards.{row_in};

use crate::cards::Card;
use crate::rows::earlier;

// The state that leaves, and the first end. It stays a number, as it stands in a card: "none" is the latest, so that the earlier of two
// ends is the lesser.
#[derive(Clone, Copy)]
pub struct Row {
    pub exit: u64,
    pub first: u32,
}

impl Card {
    // Row q.
    pub(crate) fn row(&self, q: usize) -> Row
        requires { q < greatest_pattern }
        ensures { row_in result ≡ row_of (get_or self.now.exits q 0) (get_or self.now.firsts q 0) }
    {
        Row {
            exit: self.exits[q],
            first: self.firsts[q],
        }
    }

    // The union of exits and the earliest end over the bits of a state. It stops after the highest bit, since most states have few.
    pub(crate) fn follow(&self, state: u64) -> Row
        ensures { row_in result ≡ follow greatest_pattern (rows_in self.now.exits self.now.firsts) state }
    {
        let mut exit: u64 = 0;
        let mut first: u32 = Card::NONE;
        let mut rest = state;
        let mut q = 0;
        // Goes from bit to bit of a number, up to the highest: no iterator does.
        while rest != 0 {
            if rest % 2 == 1 {
                exit |= self.exits[q];
                first = earlier(first, self.firsts[q]);
            }
            rest /= 2;
            q += 1;
        }
        Row { exit, first }
    }
}
