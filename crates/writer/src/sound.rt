// What a write is given, checked segment by segment and variant by variant: refusals 6, 7 and 8. Their places are numbers that
// count over the whole call.
ghost use Rattle.std.specs.Prelude.{◌≡◌, ◌+◌, ◌<◌, length, get_or};
ghost use Rattle.text.specs.Refusal.{outcome};
ghost use Rattle.text.specs.Letter.{meant};
ghost use Rattle.layout.specs.Reading.{among};
ghost use Rattle.writer.specs.Cuts.{Within, Behind, pieces};
ghost use Rattle.writer.specs.Writing.{Matching, spot, variant_given, segment_given, segments_given};
ghost use Rattle.writer.specs.Answers.{reached};

use crate::given::Given;
use crate::sums::Stated;
use layout::number::wide;
use text::from_end::alike_from_end;
use text::letter::first_wrong;
use text::{Refusal, refusal};

// Whether a variant spells what one of the k from variant `first` on spells, whose letters stand from `from` on.
fn repeated(parts: Given<'_>, first: usize, from: usize, k: usize, variant: &[u8]) -> bool
    requires { Within (length (meant parts.letters.now)) parts.lengths.now first from k }
    ensures { result ≡ among (meant variant.now)
        (pieces (meant parts.entry.letters.now) parts.entry.lengths.now first from k) }
{
    let mut start = from;
    for i in 0..k {
        let end = start + parts.lengths[first + i].stated();
        if alike_from_end(variant, &parts.letters[start..end]) {
            return true;
        }
        start = end;
    }
    false
}

// The variant after the k of its segment, which begins with variant `first` at letter `from`; its own letters stand from `at`
// on. Refusals 7 and 8.
fn variant_given(
    parts: Given<'_>,
    first: usize,
    from: usize,
    k: usize,
    at: usize,
) -> Result<usize, Refusal>
    requires { Behind (length (meant parts.letters.now)) parts.lengths.now first from k at }
    ensures { outcome result ≡ reached (variant_given (meant parts.entry.letters.now) parts.entry.lengths.now
        (pieces (meant parts.entry.letters.now) parts.entry.lengths.now first from k)
        (spot (first + k) at)) }
{
    let number = first + k;
    let end = at + parts.lengths[number].stated();
    let variant = &parts.letters[at..end];
    let wrong = first_wrong(variant);
    if wrong < end - at {
        let place = at + wrong;
        return Err(Refusal {
            number: refusal::WRONG_LETTER,
            place,
        });
    }
    if repeated(parts, first, from, k, variant) {
        return Err(Refusal {
            number: refusal::REPEATED,
            place: number,
        });
    }
    Ok(end)
}

// Segment number `segment`, which begins with variant `first` at letter `from`: refusals 6, 7 and 8.
fn segment_given(
    parts: Given<'_>,
    segment: usize,
    first: usize,
    from: usize,
) -> Result<usize, Refusal>
    requires segment_in_bounds { segment < length parts.counts.now }
    requires within { Within (length (meant parts.letters.now)) parts.lengths.now first from (get_or parts.counts.now segment 0) }
    ensures { outcome result ≡ reached
        (segment_given (meant parts.entry.letters.now) parts.entry.lengths.now parts.entry.counts.now segment (spot first from)) }
{
    let count = wide(parts.counts[segment]);
    if count == 0 {
        return Err(Refusal {
            number: refusal::NO_VARIANTS,
            place: segment,
        });
    }
    let mut at = from;
    for k in 0..count {
        at = variant_given(parts, first, from, k, at)?;
    }
    Ok(at)
}

// All segments, where the counts sum to the number of lengths and the lengths to the number of letters.
pub fn segments_given(parts: Given<'_>) -> Result<usize, Refusal>
    requires { Matching (meant parts.letters.now) parts.lengths.now parts.counts.now }
    ensures { outcome result ≡ reached
        (segments_given (meant parts.entry.letters.now) parts.entry.lengths.now parts.entry.counts.now) }
{
    let mut variant = 0;
    let mut at = 0;
    for (segment, count) in parts.counts.iter().enumerate() {
        at = segment_given(parts, segment, variant, at)?;
        variant += wide(*count);
    }
    Ok(at)
}
