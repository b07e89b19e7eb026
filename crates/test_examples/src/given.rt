// What a line hands to a call: its pattern and the strand; and the answer that is wanted.
use crate::notation::{behind, number, word};
use test_tally::Answer;
use text::strand::Strand;

// The pattern of a line, its first word, and the strand on which it is read: the opposite one where it has ~ in front.
pub fn pattern(line: &[u8]) -> (&[u8], Strand) {
    let first = word(line, 1);
    match first.strip_prefix(b"~") {
        Some(bases) => (bases, Strand::Opposite),
        None => (first, Strand::Given),
    }
}

// The wanted answer: after = up to three results, after ! the refusal's number and place and what goes with them.
pub fn wanted(line: &[u8]) -> Answer {
    let refusal = behind(line, b'!');
    let results = behind(line, b'=');
    if refusal.is_empty() {
        return Answer::told(number(results, 1), number(results, 2), number(results, 3));
    }
    Answer {
        number: number(refusal, 1) as u64,
        place: number(refusal, 2),
        first: number(refusal, 3),
        second: number(refusal, 4),
        third: number(refusal, 5),
    }
}
