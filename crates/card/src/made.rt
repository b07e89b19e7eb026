// The card of two neighbours, as it is made.
ghost use Rattle.std.specs.Prelude.{◌≡◌};
ghost use Rattle.text.specs.Refusal.{ok};
ghost use Rattle.text.specs.Card.{later, join, joined};
ghost use Rattle.card.specs.Cards.{card_in, card_out};

use crate::cards::Card;
use crate::rows::earlier;

// An end counted from `count` segments earlier; "none" stays "none". The sum of an end and a count is never cut off in a card that
// has at most 4294967294 segments.
fn later(count: u32, first: u32) -> u32
    ensures { result ≡ later count first }
{
    let room = Card::NONE - count;
    if first < room {
        count + first
    } else {
        Card::NONE
    }
}

impl Card {
    // The card of two neighbours that can be joined: each row of the left goes on with what the right makes of its exit.
    pub(crate) fn joined(&self, right: &Card) -> Card
        requires { join (card_in self.now) (card_in right.now) ≡ ok (joined (card_in self.now) (card_in right.now)) }
        ensures { result ≡ card_out (joined (card_in self.now) (card_in right.now)) }
    {
        let count = self.segments;
        let mut exits = self.exits;
        let mut firsts = self.firsts;
        for q in 0..Card::GREATEST_PATTERN {
            let row = right.follow(exits[q]);
            exits[q] = row.exit;
            firsts[q] = earlier(firsts[q], later(count, row.first));
        }
        let segments = count + right.segments;
        Card {
            segments,
            exits,
            firsts,
            ..*self
        }
    }
}
