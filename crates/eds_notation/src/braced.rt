// The braces of a stretch, put into a buffer: as many bytes as there is room for. A stretch's own length is always room enough.
ghost use Rattle.eds_notation.specs.Braces.{ThereIs, SegmentShown, BracesPut};

use lines::put_bytes;
use stretch::{Checked, Got, check, letters, read};
use text::Refusal;

// Whether a segment of a sound stretch has a variant of this number.
fn is_there(stretch: &[u8], segment: usize, variant: usize) -> bool
    ensures { ThereIs stretch.now segment variant result }
{
    match read(stretch, segment, variant) {
        Got::Variant { segment: found, .. } => found == segment,
        Got::End { .. } => false,
        Got::Refused { .. } => false,
    }
}

// One segment of a sound stretch.
fn put_segment(stretch: &[u8], segment: usize, out: &mut [u8], at: usize) -> usize
    ensures { SegmentShown stretch.now segment out.old at out.new result }
{
    let mut mark = b'{';
    let mut next = at;
    for variant in 0..255 {
        if !is_there(stretch, segment, variant) {
            return put_bytes(b"}", &mut *out, next);
        }
        let sign = [mark];
        let start = put_bytes(&sign, &mut *out, next);
        next = put_bytes(letters(stretch, segment, variant), &mut *out, start);
        mark = b',';
    }
    put_bytes(b"}", &mut *out, next)
}

// All segments, one after another. The place after the braces, or why the stretch is refused.
pub fn put_braces(stretch: &[u8], out: &mut [u8]) -> Result<usize, Refusal>
    ensures { BracesPut stretch.now out.old result out.new }
{
    match check(stretch) {
        Checked::Refused(wrong) => Err(wrong),
        Checked::Sound { segments, .. } => {
            let mut next = 0;
            for segment in 0..segments {
                next = put_segment(stretch, segment, &mut *out, next);
            }
            Ok(next)
        }
    }
}
