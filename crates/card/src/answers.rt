// What the calls on cards answer.
ghost use Rattle.std.specs.Prelude.{◌≡◌};
ghost use Rattle.card.specs.Answers.{made_of, asked_of};

use crate::cards::Card;
use crate::follow::Row;
use search::State;
use text::Refusal;

// A card, or a refusal beside the card of all zeros. Number 0 at place 0 is accepted.
// Stays a flag with a value beside it: its name and shape are fixed.
#[derive(Clone, Copy)]
pub struct Made {
    pub refusal: Refusal,
    pub card: Card,
}

// What a card makes of a state: the state after the stretch, and the first segment where an occurrence ends.
// Stays an enum of its own: its name and shape are fixed.
#[derive(Clone, Copy)]
pub enum Asked {
    Told { state: State, first: u32 },
    Refused(Refusal),
}

// Beside a refusal stands the card of all zeros: it has m = 0, so that it is malformed and can never be joined by mistake.
impl From<Result<Card, Refusal>> for Made {
    ghost from_gives = { λ card made. made ≡ made_of card };

    fn from(card: Result<Card, Refusal>) -> Made {
        match card {
            Ok(card) => Made {
                refusal: Refusal {
                    number: 0,
                    place: 0,
                },
                card,
            },
            Err(refusal) => Made {
                refusal,
                card: Card {
                    pattern: [0; Card::GREATEST_PATTERN],
                    m: 0,
                    segments: 0,
                    exits: [0; Card::GREATEST_PATTERN],
                    firsts: [0; Card::GREATEST_PATTERN],
                },
            },
        }
    }
}

impl From<Result<Row, Refusal>> for Asked {
    ghost from_gives = { λ row asked. asked ≡ asked_of row };

    fn from(row: Result<Row, Refusal>) -> Asked {
        match row {
            Ok(row) => Asked::Told {
                state: State { bits: row.exit },
                first: row.first,
            },
            Err(wrong) => Asked::Refused(wrong),
        }
    }
}
