// The case of a number. There are 5,000 texts; of two cases the second one has its text damaged, with a pattern that may be spoilt. After
// the cases on the given strand stand the same on the opposite one.
ghost use Rattle.std.specs.Prelude.{◌≡◌, IfOk};

use crate::damaged::damage;
use crate::drawn::{seed, text};
use crate::patterns::{pattern, spoil};
use test_reference::places::{put_part, turned};
use test_reference::{Bytes, Sound, Wrong};
use text::strand::Strand;

// How many stretches there are, whole and damaged ones, and how many cases, on both strands.
pub const STRETCHES: u64 = 10000;

pub const CASES: u64 = 20000;

// Where the random numbers start.
const SEED: u64 = 0x2545_f491_4f6c_dd1d;

// A pattern, as the strand reads it and as it is given; a stretch, and the text that it is or is made of; and what is to be said of both.
#[derive(Clone, Copy)]
pub struct Case {
    pub number: u64,
    pub text: Bytes<2048>,
    pub read: Bytes<65>,
    pub given: Bytes<65>,
    pub strand: Strand,
    pub bytes: Bytes<2048>,
    pub verdict: Result<Sound, Wrong>,
}

// The seed of a case's text.
pub fn seed_of(number: u64) -> u64 {
    seed(SEED, (number % STRETCHES / 2) as usize)
}

// Whether a case's text is damaged.
pub fn is_damaged(number: u64) -> bool {
    number % 2 == 1
}

// Puts the stretch of a case whose text this is, and tells how many bytes it has.
pub fn put_stretch(out: &mut [u8], text: &[u8], number: u64) -> usize {
    if is_damaged(number) {
        return damage(&mut *out, text, seed_of(number));
    }
    put_part(&mut *out, 0, text)
}

// Puts the pattern of a case whose text this is, as the strand reads it, and tells how many bases it has.
fn put_pattern(out: &mut [u8], text: &[u8], number: u64) -> usize {
    let seed = seed_of(number);
    let m = pattern(&mut *out, text, seed);
    if is_damaged(number) {
        return spoil(&mut *out, m, seed);
    }
    m
}

// The strand of a case.
fn strand_of(number: u64) -> Strand {
    if number < STRETCHES {
        return Strand::Given;
    }
    Strand::Opposite
}

// Puts the pattern of a case as it is given, which the strand reads so, and tells how many bases it has.
fn put_given(out: &mut [u8], read: &[u8], strand: Strand) -> usize {
    match strand {
        Strand::Given => put_part(&mut *out, 0, read),
        Strand::Opposite => turned(&mut *out, read),
    }
}

impl Case {
    // The case of a number below that of the cases.
    pub fn of(number: u64) -> Case {
        let text = Bytes::<2048>::put(|out| text(out, seed_of(number)));
        let bytes = Bytes::<2048>::put(|out| put_stretch(out, text.as_slice(), number));
        let read = Bytes::<65>::put(|out| put_pattern(out, text.as_slice(), number));
        let strand = strand_of(number);
        let given = Bytes::<65>::put(|out| put_given(out, read.as_slice(), strand));
        let alone = test_reference::stretch(bytes.as_slice());
        let verdict = test_reference::pattern(given.as_slice()).and(alone);
        Case {
            number,
            text,
            read,
            given,
            strand,
            bytes,
            verdict,
        }
    }

    // How many segments it has; none where it is refused.
    pub fn segments(&self) -> usize
        ensures { IfOk self.now.verdict (λ sound. result ≡ sound.segments) }
    {
        self.verdict.map_or(0, |sound| sound.segments)
    }
}
