// The counts of a stretch and of a segment, put into a buffer where they have room.
ghost use Rattle.std.specs.Prelude.{◌≡◌};
ghost use Rattle.layout.specs.Bytes.{word_bytes, put};
ghost use Rattle.layout.specs.Sizes.{count_bytes};

use crate::number::put_word;

// The segment count, at the front of a stretch.
pub fn put_segments(segments: usize, out: &mut [u8])
    ensures { out.new ≡ put out.old 0 (word_bytes segments) }
{
    put_word(segments, &mut *out, 0);
}

// The variant count of the segment at place `at`.
pub fn put_variants(variants: usize, out: &mut [u8], at: usize)
    ensures { out.new ≡ put out.old at (count_bytes variants) }
{
    if out.len() <= at {
        return;
    }
    out[at] = (variants % 256) as u8;
}
