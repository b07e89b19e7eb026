// The pieces of which every walk over a segment is made, each a question that is asked here alone: how many variants has the segment,
// where does a variant stand, and which of its letters is wrong; a cursor asks them. Before any walk it is asked whether the bytes may be
// read at all. Any bytes and any places are fine.
ghost use Rattle.std.specs.Prelude.{◌≡◌};
ghost use Rattle.text.specs.Refusal.{refused, outcome};
ghost use Rattle.layout.specs.Pieces.{fits_at, variants_at, head_at, misspelt_at};

use crate::number::{pair, wide};
use text::letter::first_wrong;
use text::{Refusal, limits, refusal};

// Where a variant's letters start, and where the next variant begins, right after them.
#[derive(Clone, Copy)]
pub struct Part {
    pub start: usize,
    pub next: usize,
}

// Refusal 4: a stretch or a lone segment has at most 32,768 bytes.
pub fn fits(stretch: &[u8]) -> Result<(), Refusal>
    ensures { outcome result ≡ fits_at stretch.now }
{
    if limits::GREATEST_STRETCH < stretch.len() {
        return Err(Refusal {
            number: refusal::STRETCH_LONG,
            place: 0,
        });
    }
    Ok(())
}

// The variant count of the segment at `at`: refusal 5 where it is cut off, then 6.
pub(crate) fn variants(stretch: &[u8], at: usize) -> Result<usize, Refusal>
    ensures { outcome result ≡ variants_at stretch.now at }
{
    if stretch.len() <= at {
        return Err(Refusal {
            number: refusal::BYTES_END,
            place: at,
        });
    }
    let count = wide(stretch[at]);
    if count == 0 {
        return Err(Refusal {
            number: refusal::NO_VARIANTS,
            place: at,
        });
    }
    Ok(count)
}

// The variant whose length stands at `at`: refusal 5 where the bytes end inside the length, or before the letters that it states.
pub(crate) fn head(stretch: &[u8], at: usize) -> Result<Part, Refusal>
    ensures { outcome result ≡ head_at stretch.now at }
{
    let cut_off = Err(Refusal {
        number: refusal::BYTES_END,
        place: at,
    });
    let end = stretch.len();
    if end <= at {
        return cut_off;
    }
    let left = end - at;
    if left < 2 {
        return cut_off;
    }
    let letters = pair(stretch, at);
    if left - 2 < letters {
        return cut_off;
    }
    let start = at + 2;
    let next = start + letters;
    Ok(Part { start, next })
}

// Refusal 7 of the variant at `at`, one of whose letters is no letter. Only now its place is looked for.
pub(crate) fn misspelt(stretch: &[u8], at: usize) -> Refusal
    ensures { refused result.number result.place ≡ misspelt_at stretch.now at }
{
    match head(stretch, at) {
        Err(wrong) => wrong,
        Ok(part) => {
            let place = part.start + first_wrong(&stretch[part.start..part.next]);
            Refusal {
                number: refusal::WRONG_LETTER,
                place,
            }
        }
    }
}
