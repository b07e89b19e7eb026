// The cut between segments: the closed ones are gone, and what stands open begins the buffers anew.
ghost use Rattle.std.specs.Prelude.{◌≡◌, length};
ghost use Rattle.layout.specs.Bytes.{left_by};
ghost use Rattle.layout.specs.Encoding.{encode};
ghost use Rattle.writer.specs.Answers.{written};
ghost use Rattle.stretch.specs.Answers.{told_written};
ghost use Rattle.eds_notation.specs.Cutting.{within, closed_writing, rest, cut_off};

use crate::filling::Tape;
use stretch::{Written, write};
use text::{Refusal, refusal};

// Whether a tape lies within buffers of these lengths, and what stands open within the tape.
#[tactic(auto, unfolding(crate::specs::Cutting::within))]
fn is_within(tape: Tape, letters: usize, lengths: usize) -> bool
    ensures { result ≡ within tape letters lengths }
{
    let begun = tape.begun;
    tape.letters <= letters
        && tape.lengths <= lengths
        && begun.letters <= tape.letters
        && begun.variants <= tape.lengths
}

// Writes the closed segments as a stretch. Numbers that no tape has are refused as 14.
pub fn write_closed(
    tape: Tape,
    letters: &[u8],
    lengths: &[u16],
    counts: &[u8],
    out: &mut [u8],
) -> Written
    ensures result_value { told_written result ≡ written (closed_writing tape letters.now lengths.now counts.now
        (length out.old)) }
    ensures out_after { out.new ≡ left_by encode (closed_writing tape letters.now lengths.now
        counts.now (length out.old)) out.old }
{
    let begun = tape.begun;
    let wild = Written::Refused(Refusal {
        number: refusal::WRITE_SUMS,
        place: 0,
    });
    let segments = tape.counts;
    if counts.len() < segments {
        return wild;
    }
    if !is_within(tape, letters.len(), lengths.len()) {
        return wild;
    }
    let spelt = tape.letters - begun.letters;
    let variants = tape.lengths - begun.variants;
    write(
        &letters[..spelt],
        &lengths[..variants],
        &counts[..segments],
        &mut *out,
    )
}

// The tape of what stands open, moved to the front. Numbers that no tape has leave all as it is.
pub fn cut(tape: Tape, letters: &mut [u8], lengths: &mut [u16]) -> Tape
    ensures { rest result letters.new lengths.new ≡ cut_off tape letters.old lengths.old }
{
    let begun = tape.begun;
    let spelt = begun.letters;
    let variants = begun.variants;
    let letters_end = tape.letters;
    let lengths_end = tape.lengths;
    if !is_within(tape, letters.len(), lengths.len()) {
        return tape;
    }
    letters.copy_within(letters_end - spelt..letters_end, 0);
    lengths.copy_within(lengths_end - variants..lengths_end, 0);
    Tape {
        letters: spelt,
        lengths: variants,
        counts: 0,
        begun,
    }
}
