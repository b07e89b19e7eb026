// How many bytes a text and its parts take. Whoever makes or measures bytes asks here, so that no one else knows how a count or a length
// is written. Any numbers are fine: a size or a place beyond the greatest number is that number.
ghost use Rattle.std.specs.Prelude.{◌≡◌, ◌+◌, ◌*◌};
ghost use Rattle.layout.specs.Sizes.{first_letter, segment_bytes, text_bytes, saturated};

// Where the first segment of a stretch stands: after the segment count.
pub const FIRST_SEGMENT: usize = 2;
// How far after a segment's place its first variant stands: after the variant count.
pub const FIRST_VARIANT: usize = 1;
// How far after a variant's place its first letter stands: after the length.
pub const FIRST_LETTER: usize = 2;
// The least segment: a count and one empty variant.
pub const LEAST_SEGMENT: usize = FIRST_VARIANT + FIRST_LETTER;

// A sum, or the greatest number where it is more.
pub(crate) fn plus(a: usize, b: usize) -> usize
    ensures { result ≡ saturated (a + b) }
{
    if usize::MAX - a < b {
        return usize::MAX;
    }
    a + b
}

// That many variants with that many letters in all, after `before` bytes.
fn with_variants(before: usize, letters: usize, variants: usize) -> usize
    ensures { result ≡ saturated (before + first_letter * variants + letters) }
{
    if usize::MAX / FIRST_LETTER < variants {
        return usize::MAX;
    }
    let lengths = plus(before, FIRST_LETTER * variants);
    plus(lengths, letters)
}

// The bytes of a segment of that many variants, with that many letters in all.
pub fn segment_bytes(letters: usize, variants: usize) -> usize
    ensures { result ≡ saturated (segment_bytes letters variants) }
{
    with_variants(FIRST_VARIANT, letters, variants)
}

// The bytes of a text of that many segments, with that many variants and letters in all: the place of the segment after them, too.
pub fn text_bytes(letters: usize, variants: usize, segments: usize) -> usize
    ensures { result ≡ saturated (text_bytes letters variants segments) }
{
    let counts = plus(FIRST_SEGMENT, segments);
    with_variants(counts, letters, variants)
}
