// The answers of the library's calls, all in one form.
ghost use Rattle.std.specs.Prelude.{◌≡◌};
ghost use Rattle.test_tally.specs.Answers.{checked_as, written_as, got_as, searched_as, fed_as, asked_as, row_as};
ghost use Rattle.test_tally.specs.Answers.{found_as, listed_as};

use crate::answers::Answer;
use card::{Asked, Card, Made};
use search::{Fed, Searched};
use stretch::{Checked, Got, Written};
use watch::{Found, Listed};

// A check: segment count and size.
impl From<Checked> for Answer {
    ghost from_gives = { λ r a. a ≡ checked_as r };

    fn from(answer: Checked) -> Answer {
        match answer {
            Checked::Sound { segments, size } => Answer::told(segments, size, 0),
            Checked::Refused(refusal) => Answer::from(refusal),
        }
    }
}

// A write: how many bytes were written.
impl From<Written> for Answer {
    ghost from_gives = { λ r a. a ≡ written_as r };

    fn from(answer: Written) -> Answer {
        match answer {
            Written::Bytes(bytes) => Answer::told(bytes, 0, 0),
            Written::Refused(refusal) => Answer::from(refusal),
        }
    }
}

// A read that is to find that many letters: where they start, 0 for the end and a refusal, and the place that goes with it. A
// refusal that no call gives where it finds more or fewer.
pub fn got(answer: Got, letters: usize) -> Answer
    ensures { result ≡ got_as answer letters }
{
    match answer {
        Got::Variant {
            start,
            len,
            segment,
            variant,
        } => {
            if len != letters {
                return Answer::refused(100, 1);
            }
            Answer::told(start, segment, variant)
        }
        Got::End { segment, variant } => Answer::told(0, segment, variant),
        Got::Refused {
            refusal,
            segment,
            variant,
        } => Answer {
            number: refusal.number,
            place: refusal.place,
            first: 0,
            second: segment,
            third: variant,
        },
    }
}

// A search: segment count, size and number of ones.
impl From<Searched> for Answer {
    ghost from_gives = { λ r a. a ≡ searched_as r };

    fn from(answer: Searched) -> Answer {
        match answer {
            Searched::Marked {
                segments,
                size,
                ends,
            } => Answer::told(segments, size, ends),
            Searched::Refused(refusal) => Answer::from(refusal),
        }
    }
}

// A feed: the bits of the next state, and whether an occurrence ends.
impl From<Fed> for Answer {
    ghost from_gives = { λ r a. a ≡ fed_as r };

    fn from(answer: Fed) -> Answer {
        match answer {
            Fed::Next { state, ends } => Answer::told(state.bits as usize, ends as usize, 0),
            Fed::Refused(refusal) => Answer::from(refusal),
        }
    }
}

// What a watch list finds: the label, and the first ending segment, 4,294,967,295 where no record ends.
impl From<Found> for Answer {
    ghost from_gives = { λ r a. a ≡ found_as r };

    fn from(answer: Found) -> Answer {
        match answer {
            Found::Ends { label, segment } => Answer::told(label as usize, segment, 0),
            Found::None => Answer::told(0, 4294967295, 0),
            Found::Refused(refusal) => Answer::from(refusal),
        }
    }
}

// Whether the records of a watch list were marked.
impl From<Listed> for Answer {
    ghost from_gives = { λ r a. a ≡ listed_as r };

    fn from(answer: Listed) -> Answer {
        match answer {
            Listed::Marked => Answer::told(0, 0, 0),
            Listed::Refused(refusal) => Answer::from(refusal),
        }
    }
}

// What a card tells of a state: the bits of the state after the stretch, and the first end.
impl From<Asked> for Answer {
    ghost from_gives = { λ r a. a ≡ asked_as r };

    fn from(answer: Asked) -> Answer {
        match answer {
            Asked::Told { state, first } => Answer::told(state.bits as usize, first as usize, 0),
            Asked::Refused(refusal) => Answer::from(refusal),
        }
    }
}

// A card, at row q modulo 64: the row's exit and first end, and the segment count. Beside a refusal all of them are to be 0.
pub fn row(answer: &Made, q: usize) -> Answer
    ensures { result ≡ row_as answer.now q }
{
    let place = q % Card::GREATEST_PATTERN;
    Answer {
        number: answer.refusal.number,
        place: answer.refusal.place,
        first: answer.card.exits[place] as usize,
        second: answer.card.firsts[place] as usize,
        third: answer.card.segments as usize,
    }
}
