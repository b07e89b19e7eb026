// The bytes of a text, put into a buffer that has room for them.
ghost use Rattle.std.specs.Prelude.{◌≡◌, ◌+◌, ◌≤◌, length};
ghost use Rattle.text.specs.Letter.{meant};
ghost use Rattle.layout.specs.Bytes.{over};
ghost use Rattle.layout.specs.Encoding.{encode_segment, encode};
ghost use Rattle.writer.specs.Cuts.{Within, sum_from, pieces};
ghost use Rattle.writer.specs.Writing.{Matching, given, needed};

use crate::given::Given;
use crate::sums::Stated;
use layout::number::wide;
use layout::{FIRST_VARIANT, after_variant, put_segments, put_variant, put_variants, text_bytes};

// A segment: its variant count, then that many variants, from variant `first` on, whose letters stand from `from` on. The number of
// the first letter after them.
fn put_segment(
    parts: Given<'_>,
    first: usize,
    from: usize,
    count: u8,
    out: &mut [u8],
    at: usize,
) -> usize
    requires within { Within (length (meant parts.letters.now)) parts.lengths.now first from count }
    requires count_in_bounds { at + length (encode_segment (pieces (meant parts.letters.now) parts.lengths.now first from count))
        ≤ length out.old }
    ensures value { result ≡ from + sum_from parts.entry.lengths.now first count }
    ensures out_after { out.new ≡ over out.old at
        (encode_segment (pieces (meant parts.entry.letters.now) parts.entry.lengths.now first from count)) }
{
    let variants = wide(count);
    put_variants(variants, &mut *out, at);
    let mut next = at + FIRST_VARIANT;
    let mut start = from;
    for k in 0..variants {
        let size = parts.lengths[first + k].stated();
        let end = start + size;
        put_variant(&parts.letters[start..end], &mut *out, next);
        next = after_variant(next, size);
        start = end;
    }
    start
}

// The whole text: its segment count, then its segments. A segment stands where the text of those before it would end.
pub fn put_text(parts: Given<'_>, out: &mut [u8])
    requires cases { Matching (meant parts.letters.now) parts.lengths.now parts.counts.now }
    requires counts_in_bounds { needed (meant parts.letters.now) parts.lengths.now parts.counts.now ≤ length out.old }
    ensures { out.new ≡ over out.old 0
        (encode (given (meant parts.entry.letters.now) parts.entry.lengths.now parts.entry.counts.now)) }
{
    put_segments(parts.counts.len(), &mut *out);
    let mut variant = 0;
    let mut letter = 0;
    for (segment, count) in parts.counts.iter().enumerate() {
        let at = text_bytes(letter, variant, segment);
        letter = put_segment(parts, variant, letter, *count, &mut *out, at);
        variant += wide(*count);
    }
}
