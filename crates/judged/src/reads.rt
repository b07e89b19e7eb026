// The reads, as the lines give them.
use test_examples::notation::{number, word};
use test_tally::{Answer, got, held};

// read STRETCH segment variant LETTERS = start segment variant: from a plain place.
pub fn read(line: &[u8], text: &[u8]) -> Answer {
    let segment = number(line, 2);
    let variant = number(line, 3);
    let part = word(line, 4);
    let found = got(stretch::read(text, segment, variant), part.len());
    held(found, stretch::letters(text, segment, variant), part)
}

// The same by a reader that keeps the stretch.
pub fn read_kept(line: &[u8], text: &[u8]) -> Answer {
    let found = stretch::read_from(text, number(line, 2), number(line, 3));
    got(found, word(line, 4).len())
}
