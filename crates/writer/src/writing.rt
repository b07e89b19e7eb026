// A write of a whole text: everything is asked, and then written.
ghost use Rattle.std.specs.Prelude.{◌≡◌, length};
ghost use Rattle.text.specs.Refusal.{refused, outcome};
ghost use Rattle.layout.specs.Encoding.{encode};
ghost use Rattle.writer.specs.Writing.{writing};
ghost use Rattle.writer.specs.Answers.{written};
ghost use Rattle.layout.specs.Bytes.{left_by};

use crate::bytes::put_text;
use crate::given::Given;
use crate::sound::segments_given;
use crate::sums::sums_to;
use layout::text_bytes;
use text::{Refusal, limits, refusal};

// A refusal that has no place of its own.
fn refused_at_0(number: u64) -> Result<usize, Refusal>
    ensures { outcome result ≡ refused number 0 }
{
    Err(Refusal { number, place: 0 })
}

// Writes the letters, cut into variants by the lengths and into segments by the counts: refusals 14, 4, then segment by segment 6
// and, variant by variant, 7 before 8, then 15. Nothing is written before all of them are asked.
pub fn put_stretch(
    letters: &[u8],
    lengths: &[u16],
    counts: &[u8],
    out: &mut [u8],
) -> Result<usize, Refusal>
    ensures answer { outcome result ≡ written
        (writing letters.now lengths.now counts.now (length out.old)) }
    ensures buffer { out.new ≡ left_by encode
        (writing letters.now lengths.now counts.now (length out.old))
        out.old }
{
    if !sums_to(counts, lengths.len()) {
        return refused_at_0(refusal::WRITE_SUMS);
    }
    if !sums_to(lengths, letters.len()) {
        return refused_at_0(refusal::WRITE_SUMS);
    }
    let needed = text_bytes(letters.len(), lengths.len(), counts.len());
    if limits::GREATEST_STRETCH < needed {
        return refused_at_0(refusal::STRETCH_LONG);
    }
    let parts = Given {
        letters,
        lengths,
        counts,
    };
    segments_given(parts)?;
    if out.len() < needed {
        return refused_at_0(refusal::OUTPUT_SHORT);
    }
    put_text(parts, &mut *out);
    Ok(needed)
}
