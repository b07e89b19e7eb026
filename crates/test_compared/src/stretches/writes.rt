// The writer: what a text was taken apart into, written again.
use stretch::write;
use test_reference::places::{
    counts, lengths, letters, put_part, raised, variants_before, word_at,
};
use test_reference::{Bytes, Sound, Wrong};
use test_tally::{Answer, Tally, held_in};

// The group of the writes.
const WRITES: usize = 2;

// The parts of a text, written again, where that leaves these bytes in front of the buffer.
fn again(bytes: &[u8], wanted: &[u8]) -> Answer {
    let segments = word_at(bytes, 0) as usize;
    let variants = variants_before(bytes, segments);
    let row = Bytes::<2048>::put(|out| letters(out, bytes, segments, variants));
    let mut long = [0u16; 64];
    lengths(&mut long, bytes, segments);
    let many = Bytes::<32>::put(|out| {
        counts(out, bytes);
        segments
    });
    held_in::<2048, _, _>(
        7,
        |left| put_part(left, 0, wanted),
        |out| { Answer::from(write(row.as_slice(), &long[..variants % 65], many.as_slice(), out)) },
    )
}

// A text that is accepted, and written as it was with its letters in upper case; or refused for a variant that is repeated, at its
// number.
pub fn compare(tally: &mut Tally, bytes: &[u8], verdict: Result<Sound, Wrong>) {
    match verdict {
        Ok(sound) => {
            let text = Bytes::<2048>::put(|out| raised(out, bytes, sound.segments, sound.variants));
            let wanted = Answer::told(text.as_slice().len(), 0, 0);
            tally.compare(WRITES, again(bytes, text.as_slice()), wanted);
        }
        Err(wrong) => {
            let wanted = Answer::refused(wrong.refusal as u64, wrong.before);
            tally.compare(WRITES, again(bytes, &[]), wanted);
        }
    }
}
