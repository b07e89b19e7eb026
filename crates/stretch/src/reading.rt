// Reading a stretch from a place on: the first variant at or after a segment number and a variant number, in text order. The
// whole stretch is checked each time, so that any bytes and any place are fine.
ghost use Rattle.std.specs.Prelude.{◌+◌, ◌<◌, ◌≤◌, ◌≡◌, length};
ghost use Rattle.layout.specs.Pieces.{next_of};
ghost use Rattle.layout.specs.Skips.{behind_variants};
ghost use Rattle.stretch.specs.Places.{reading, part_of};
ghost use Rattle.stretch.specs.Answers.{Accepted, told_got, handed_at};

use crate::checking::{Checked, check};
use crate::places::{behind_variants, segment_place};
use layout::number::{wide, word_at};
use layout::{FIRST_LETTER, FIRST_VARIANT};
use text::Refusal;

// What a read finds, and the place that goes with it. It stays an enum of its own: its name and shape are fixed.
#[derive(Clone, Copy)]
pub enum Got {
    // Where the variant's letters stand, and the place one variant number after it.
    Variant {
        start: usize,
        len: usize,
        segment: usize,
        variant: usize,
    },
    // After the last variant; the place unchanged.
    End {
        segment: usize,
        variant: usize,
    },
    // The place unchanged.
    Refused {
        refusal: Refusal,
        segment: usize,
        variant: usize,
    },
}

// The variant of that number of the segment whose count stands at `at`.
fn handed(stretch: &[u8], at: usize, segment: usize, variant: usize) -> Got
    requires { (next_of stretch.now (behind_variants stretch.now variant (at + 1)) ≤ length stretch.now) × (variant < 256) }
    ensures { told_got result ≡ handed_at stretch.now at segment variant }
{
    let place = behind_variants(stretch, variant, at + FIRST_VARIANT);
    Got::Variant {
        start: place + FIRST_LETTER,
        len: word_at(stretch, place),
        segment,
        variant: variant + 1,
    }
}

// The first variant at or after a place of a stretch that was found sound.
fn from_place(stretch: &[u8], segments: usize, segment: usize, variant: usize) -> Got
    requires { Accepted stretch.now segments }
    ensures { told_got result ≡ reading stretch.now segment variant }
{
    if segments <= segment {
        return Got::End { segment, variant };
    }
    let at = segment_place(stretch, segment);
    let variants = wide(stretch[at]);
    if variant < variants {
        return handed(stretch, at, segment, variant);
    }
    if segment + 1 == segments {
        return Got::End { segment, variant };
    }
    let next = behind_variants(stretch, variants, at + FIRST_VARIANT);
    handed(stretch, next, segment + 1, 0)
}

// The first variant at or after a place. Refusals 4, 5 to 9 and 16.
pub fn read(stretch: &[u8], segment: usize, variant: usize) -> Got
    ensures { told_got result ≡ reading stretch.now segment variant }
{
    match check(stretch) {
        Checked::Refused(refusal) => Got::Refused {
            refusal,
            segment,
            variant,
        },
        Checked::Sound { segments, .. } => from_place(stretch, segments, segment, variant),
    }
}

// The letters that go with that answer, as the part of the stretch where they stand; none for the end and a refusal.
pub fn letters(stretch: &[u8], segment: usize, variant: usize) -> &[u8]
    ensures { result.now ≡ part_of stretch.now (reading stretch.now segment variant).answer }
{
    match read(stretch, segment, variant) {
        Got::Variant { start, len, .. } => &stretch[start..start + len],
        Got::End { .. } => &stretch[..0],
        Got::Refused { .. } => &stretch[..0],
    }
}
