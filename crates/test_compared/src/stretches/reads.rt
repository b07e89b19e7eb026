// The reader, at every variant and after the last one: from a plain place, and as one that keeps the stretch.
use crate::refused;
use stretch::{letters, read, read_from};
use test_reference::places::{Place, letters_at, place_of};
use test_reference::{Sound, Wrong};
use test_tally::{Answer, Tally, got, held};

// The group of the reads.
const READS: usize = 1;

// Both reads from a place are to find these letters and to answer so.
fn from(tally: &mut Tally, bytes: &[u8], place: Place, part: &[u8], wanted: Answer) {
    let segment = place.segment;
    let variant = place.variant;
    let plain = got(read(bytes, segment, variant), part.len());
    let kept = got(read_from(bytes, segment, variant), part.len());
    let found = held(plain, letters(bytes, segment, variant), part);
    tally.compare(READS, found, wanted);
    tally.compare(READS, kept, wanted);
}

// From the start of a stretch that is refused: no letters, and its refusal. From the place of each variant: its letters, and the place
// after it. From the place after the last one: no letters, and the same place.
pub fn compare(tally: &mut Tally, bytes: &[u8], verdict: Result<Sound, Wrong>) {
    let sound = match verdict {
        Ok(sound) => sound,
        Err(wrong) => return from(
            &mut *tally,
            bytes,
            place_of(bytes, 0, 0),
            &[],
            refused(wrong),
        ),
    };
    let last = place_of(bytes, sound.segments, sound.variants);
    let end = Answer::told(0, last.segment, last.variant);
    from(&mut *tally, bytes, last, &[], end);
    for k in 0..sound.variants {
        let place = place_of(bytes, sound.segments, k);
        let wanted = Answer::told(
            place.at.wrapping_add(2),
            place.segment,
            place.variant.wrapping_add(1),
        );
        from(
            &mut *tally,
            bytes,
            place,
            letters_at(bytes, place.at),
            wanted,
        );
    }
}
