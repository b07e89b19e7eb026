// The test for repetition: whether a variant spells what an earlier one of its segment spells, whatever the case of the letters. A walk
// keeps a set of 64 bits, the prints of the variants that it has passed, and compares a variant only where the set has its print.
ghost use Rattle.std.specs.Prelude.{◌≡◌, ◌+◌, ◌<◌, length, take, drop};
ghost use Rattle.text.specs.Compare.{alike};
ghost use Rattle.layout.specs.Pieces.{repeats};
ghost use Rattle.layout.specs.Prints.{print_at, suspected_at, repeats_at};

use crate::number::{pair, wide};
use crate::pieces::head;
use text::from_end::alike_from_end;
use text::{Refusal, refusal};

// Whether the `letters` bytes from `start` on spell the variant. Only if they are as many, they are compared.
fn stands(stretch: &[u8], start: usize, letters: usize, variant: &[u8]) -> bool
    requires { start + length variant.now < length stretch.now }
    ensures { result ≡ alike variant.now (take letters (drop start stretch.now)) }
{
    if letters != variant.len() {
        return false;
    }
    let next = start + letters;
    alike_from_end(variant, &stretch[start..next])
}

// Whether a variant that has room at `at` is equal to one that stands before it, of those from `first` on. Whatever stands before it
// and is as long lies within the bytes too, so that the loop tests nothing: it goes from length to length, as no iterator does.
fn repeated(stretch: &[u8], first: usize, at: usize, variant: &[u8]) -> bool
    ensures { result ≡ repeats stretch.now variant.now first at }
{
    let end = stretch.len();
    if end <= at {
        return false;
    }
    let left = end - at;
    if left < 2 {
        return false;
    }
    if left - 2 < variant.len() {
        return false;
    }
    let mut place = first;
    while place < at {
        let letters = pair(stretch, place);
        let start = place + 2;
        if stands(stretch, start, letters, variant) {
            return true;
        }
        place = start + letters;
    }
    false
}

// The same of the variant that stands at `at`; one that is cut off repeats none.
pub fn repeated_at(stretch: &[u8], first: usize, at: usize) -> bool
    ensures { result ≡ repeats_at stretch.now first at }
{
    match head(stretch, at) {
        Err(_) => false,
        Ok(part) => repeated(stretch, first, at, &stretch[part.start..part.next]),
    }
}

// Refusal 8, at the place of the variant that repeats another.
pub fn again(at: usize) -> Refusal
    ensures { (result.number ≡ 8) × (result.place ≡ at) }
{
    Refusal {
        number: refusal::REPEATED,
        place: at,
    }
}

// The print of the variant at `at`: one of 64 bits, the same for variants that spell the same. It goes by the length and the last letter,
// of which it takes two bits that its case does not change; the byte before the next variant is 0 where there is no letter. The
// only one of its segment needs none.
pub fn print(stretch: &[u8], count: usize, at: usize) -> u64
    ensures { result ≡ print_at stretch.now count at }
{
    if count == 1 {
        return 0;
    }
    match head(stretch, at) {
        Err(_) => 0,
        Ok(part) => {
            let letters = part.next - part.start;
            let last = wide(stretch[part.next - 1]);
            let number = letters % 16 * 4 + last / 2 % 4;
            1 << number
        }
    }
}

// Whether the set has the print of the variant at `at`, one of `count` of its segment.
pub fn suspected(stretch: &[u8], count: usize, prints: u64, at: usize) -> bool
    ensures { result ≡ suspected_at stretch.now count prints at }
{
    prints & print(stretch, count, at) != 0
}
