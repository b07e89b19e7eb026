// What the bytes of a text put into the three buffers of a write: letters, variant lengths and variant counts. What stands open is
// counted too, so that its segment can be closed within a stretch.
ghost use Rattle.std.specs.Prelude.{◌≡◌, length, drop, set};
ghost use Rattle.eds_notation.specs.Notation.{ended};
ghost use Rattle.eds_notation.specs.Filling.{empty_tape, no_room, fits, buffers, letter_step, variant_step, segment_step, length_put, count_put};
ghost use Rattle.eds_notation.specs.Filling.{step_of, puts, if_done, came, read_on};

use crate::notation::{Act, Begun};
use crate::repetition::stands;
use crate::wrong::Wrong;
use layout::number::wide;
use layout::text_bytes;
use text::limits;

// How much of each buffer is filled, and what stands open.
#[derive(Clone, Copy)]
pub struct Tape {
    pub letters: usize,
    pub lengths: usize,
    pub counts: usize,
    pub begun: Begun,
}

// Why a byte is not put: a stretch has no room for it, so that the closed segments are to be written and cut off before; or it is wrong.
#[derive(Clone, Copy)]
pub enum Stop {
    Full,
    Wrong(Wrong),
}

impl From<Wrong> for Stop {
    ghost use Rattle.eds_notation.specs.declared.filling.Stop.{Stop};

    ghost from_gives = { λ wrong stop. stop ≡ Stop.Wrong wrong };

    fn from(wrong: Wrong) -> Stop {
        Stop::Wrong(wrong)
    }
}

// Where a piece of a text is read no further: the place of the byte, the tape before it, and why.
#[derive(Clone, Copy)]
pub struct Halt {
    pub at: usize,
    pub tape: Tape,
    pub stop: Stop,
}

impl Tape {
    // Nothing is filled, and nothing stands open.
    pub fn empty() -> Tape
        ensures { result ≡ empty_tape }
    {
        Tape {
            letters: 0,
            lengths: 0,
            counts: 0,
            begun: Begun::nothing(),
        }
    }
}

// No room for what stands open: without a closed segment there never is.
fn full(tape: Tape) -> Stop
    ensures { result ≡ no_room tape }
{
    if tape.counts == 0 {
        return Stop::Wrong(Wrong::Long);
    }
    Stop::Full
}

// Whether the open segment, with this many letters and variants more, can be closed within a stretch, and its numbers are sound.
fn fits(tape: Tape, more: u8, another: u8) -> bool
    ensures { result ≡ fits tape more another }
{
    let letters = tape.letters;
    let lengths = tape.lengths;
    let counts = tape.counts;
    let begun = tape.begun;
    if limits::GREATEST_STRETCH < letters {
        return false;
    }
    if limits::GREATEST_STRETCH < lengths {
        return false;
    }
    if limits::GREATEST_STRETCH < counts {
        return false;
    }
    if begun.letters < begun.spelt {
        return false;
    }
    if letters < begun.letters {
        return false;
    }
    if lengths < begun.variants {
        return false;
    }
    if 254 < begun.variants {
        return false;
    }
    let spelt = letters + wide(more);
    let variants = lengths + 1 + wide(another);
    text_bytes(spelt, variants, counts + 1) <= limits::GREATEST_STRETCH
}

// One letter more.
fn put_letter(tape: Tape, begun: Begun, byte: u8, letters: &mut [u8]) -> Result<Tape, Stop>
    ensures value { result ≡ letter_step tape begun (length letters.old) }
    ensures letters_after { letters.new ≡ if_done result (set letters.old tape.letters byte) letters.old }
{
    let at = tape.letters;
    if letters.len() <= at {
        return Err(full(tape));
    }
    if !fits(tape, 1, 0) {
        return Err(full(tape));
    }
    letters[at] = byte;
    Ok(Tape {
        letters: at + 1,
        begun,
        ..tape
    })
}

// The open variant ends, and `another` may follow it.
fn put_variant(
    tape: Tape,
    begun: Begun,
    another: u8,
    letters: &[u8],
    lengths: &mut [u16],
) -> Result<Tape, Stop>
    ensures value { result ≡ variant_step tape begun another letters.now lengths.old }
    ensures lengths_after { lengths.new ≡ if_done result (length_put tape lengths.old) lengths.old }
{
    let at = tape.lengths;
    let end = tape.letters;
    let before = tape.begun;
    if letters.len() < end {
        return Err(full(tape));
    }
    if lengths.len() <= at {
        return Err(full(tape));
    }
    if !fits(tape, 0, another) {
        return Err(full(tape));
    }
    let first = at - before.variants;
    let from = end - before.letters;
    if stands(&letters[from..end], &lengths[first..at], before.spelt) {
        return Err(Stop::Wrong(Wrong::Repeated));
    }
    lengths[at] = before.spelt as u16;
    Ok(Tape {
        lengths: at + 1,
        begun,
        ..tape
    })
}

// The open variant and its segment end.
fn put_segment(
    tape: Tape,
    begun: Begun,
    letters: &[u8],
    lengths: &mut [u16],
    counts: &mut [u8],
) -> Result<Tape, Stop>
    ensures value { result ≡ segment_step tape begun (buffers letters.now lengths.old counts.old) }
    ensures lengths_after { lengths.new ≡ if_done result (length_put tape lengths.old) lengths.old }
    ensures counts_after { counts.new ≡ if_done result (count_put tape counts.old) counts.old }
{
    let at = tape.counts;
    let before = tape.begun;
    if counts.len() <= at {
        return Err(full(tape));
    }
    let next = put_variant(tape, begun, 0, letters, &mut *lengths)?;
    counts[at] = (before.variants + 1) as u8;
    Ok(Tape {
        counts: at + 1,
        ..next
    })
}

// What an act puts, if no byte is wrong.
fn put(
    tape: Tape,
    act: Result<Act, Wrong>,
    byte: u8,
    letters: &mut [u8],
    lengths: &mut [u16],
    counts: &mut [u8],
) -> Result<Tape, Stop>
    ensures value { result ≡ step_of tape act (buffers letters.old lengths.old counts.old) }
    ensures counts_after { buffers letters.new lengths.new counts.new
        ≡ if_done result (puts tape act byte (buffers letters.old lengths.old counts.old))
        (buffers letters.old lengths.old counts.old) }
{
    match act? {
        Act::Pass(begun) => Ok(Tape { begun, ..tape }),
        Act::Letter(begun) => put_letter(tape, begun, byte, &mut *letters),
        Act::Variant(begun) => put_variant(tape, begun, 1, letters, &mut *lengths),
        Act::Segment(begun) => put_segment(tape, begun, letters, &mut *lengths, &mut *counts),
    }
}

// Reads a piece of a text from place `from` on.
pub fn read_on(
    tape: Tape,
    piece: &[u8],
    from: usize,
    letters: &mut [u8],
    lengths: &mut [u16],
    counts: &mut [u8],
) -> Result<Tape, Halt>
    ensures { came result (buffers letters.new lengths.new counts.new)
        ≡ read_on tape (buffers letters.old lengths.old counts.old) from
        (drop from piece.now) }
{
    let mut done = tape;
    for at in from..piece.len() {
        let byte = piece[at];
        let act = done.begun.act(byte);
        match put(done, act, byte, &mut *letters, &mut *lengths, &mut *counts) {
            Ok(next) => done = next,
            Err(stop) => {
                return Err(Halt {
                    at,
                    tape: done,
                    stop,
                });
            }
        }
    }
    Ok(done)
}

// The end of a text.
pub fn finish(
    tape: Tape,
    letters: &mut [u8],
    lengths: &mut [u16],
    counts: &mut [u8],
) -> Result<Tape, Stop>
    ensures value { result ≡ step_of tape (ended tape.begun tape.begun.mode)
        (buffers letters.old lengths.old counts.old) }
    ensures counts_after { buffers letters.new lengths.new counts.new
        ≡ if_done result (puts tape (ended tape.begun tape.begun.mode) 0
        (buffers letters.old lengths.old counts.old))
        (buffers letters.old lengths.old counts.old) }
{
    put(
        tape,
        tape.begun.end(),
        0,
        &mut *letters,
        &mut *lengths,
        &mut *counts,
    )
}
