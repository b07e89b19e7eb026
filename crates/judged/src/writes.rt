// The write, as the lines give it.
use test_examples::notation::{number, raw, word};
use test_reference::Bytes;
use test_reference::places::{put_part, word_at};
use test_tally::{Answer, held_in, lent};

// write LETTERS LENGTHS COUNTS room STRETCH = bytes: letters, lengths of two bytes, low byte first, and counts are raw. Into that many
// bytes of a buffer of 7, where it leaves the stretch in front of it.
#[inline(never)]
pub fn write(line: &[u8], text: &[u8]) -> Answer {
    let letters = Bytes::<70000>::put(|out| raw(out, word(line, 1)));
    let counts = Bytes::<11000>::put(|out| raw(out, word(line, 3)));
    // Stays a buffer: lengths that have no room here are cut off.
    let mut words = [0u8; 22000];
    let variants = raw(&mut words, word(line, 2)) / 2 % 11001;
    let mut lengths = [0u16; 11000];
    for (k, length) in lengths.iter_mut().enumerate() {
        *length = word_at(&words, k.wrapping_mul(2));
    }
    held_in::<40000, _, _>(
        7,
        |left| put_part(left, 0, text),
        |out| {
            lent(out, number(line, 4), |room| {
                Answer::from(stretch::write(
                    letters.as_slice(),
                    &lengths[..variants],
                    counts.as_slice(),
                    room,
                ))
            })
        },
    )
}
