// The write of a stretch as its callers have it: what the writer puts, or its refusal.
ghost use Rattle.std.specs.Prelude.{◌≡◌, length};
ghost use Rattle.layout.specs.Bytes.{left_by};
ghost use Rattle.layout.specs.Encoding.{encode};
ghost use Rattle.writer.specs.Writing.{writing};
ghost use Rattle.writer.specs.Answers.{written};
ghost use Rattle.stretch.specs.Answers.{told_written};

use text::Refusal;
use writer::put_stretch;

// The number of bytes written. It stays an enum of its own: its name and shape are fixed.
#[derive(Clone, Copy)]
pub enum Written {
    Bytes(usize),
    Refused(Refusal),
}

// Writes the letters, cut into variants by the lengths and into segments by the counts: refusals 14, 4, then segment by segment 6
// and, variant by variant, 7 before 8, then 15. Nothing is written before all of them are asked.
pub fn write(letters: &[u8], lengths: &[u16], counts: &[u8], out: &mut [u8]) -> Written
    ensures answer { told_written result ≡ written
        (writing letters.now lengths.now counts.now (length out.old)) }
    ensures buffer { out.new ≡ left_by encode
        (writing letters.now lengths.now counts.now (length out.old))
        out.old }
{
    match put_stretch(letters, lengths, counts, &mut *out) {
        Ok(n) => Written::Bytes(n),
        Err(refused) => Written::Refused(refused),
    }
}
