// A walk over the variants of one segment, as a value that stands before the next of them. Every walk over a segment takes these steps:
// enter; then for each variant head, its own pass over the letters, misspelt if one of them was wrong, compared if it suspects the
// variant, and past. Any bytes and any numbers are fine.
ghost use Rattle.std.specs.Prelude.{◌≡◌};
ghost use Rattle.text.specs.Refusal.{refused, outcome};
ghost use Rattle.layout.specs.Pieces.{head_at, misspelt_at};
ghost use Rattle.layout.specs.Prints.{suspected_at};
ghost use Rattle.layout.specs.Cursor.{enter_at, compared_at, past_at};

use crate::pieces::{Part, head, misspelt, variants};
use crate::repetition::{again, print, repeated_at, suspected};
use crate::sizes::FIRST_VARIANT;
use std::num::wrapping_add_usize;
use text::Refusal;
use text::size::counted;

#[derive(Clone, Copy)]
pub struct Cursor {
    // How many variants the segment has, and how many of them are left.
    pub count: usize,
    pub left: usize,
    // Where the first variant stands, and the next one.
    pub first: usize,
    pub at: usize,
    // The prints of the variants that were passed, and their size.
    pub prints: u64,
    pub size: usize,
}

impl Cursor {
    // The segment at `at`: refusals 5 and 6 of its count.
    pub fn enter(stretch: &[u8], at: usize) -> Result<Cursor, Refusal>
        ensures { outcome result ≡ enter_at stretch.now at }
    {
        let count = variants(stretch, at)?;
        let first = at + FIRST_VARIANT;
        Ok(Cursor {
            count,
            left: count,
            first,
            at: first,
            prints: 0,
            size: 0,
        })
    }

    // Where the letters of the next variant stand: refusal 5.
    pub fn head(self, stretch: &[u8]) -> Result<Part, Refusal>
        ensures { outcome result ≡ head_at stretch.now self.at }
    {
        head(stretch, self.at)
    }

    // Refusal 7 of the next variant, one of whose letters is no letter.
    pub fn misspelt(self, stretch: &[u8]) -> Refusal
        ensures { refused result.number result.place ≡ misspelt_at stretch.now self.at }
    {
        misspelt(stretch, self.at)
    }

    // Whether the next variant may repeat one that was passed: only then it need be compared.
    pub fn suspects(self, stretch: &[u8]) -> bool
        ensures { result ≡ suspected_at stretch.now self.count self.prints self.at }
    {
        suspected(stretch, self.count, self.prints, self.at)
    }

    // Refusal 8 of the next variant. Each walk calls this itself: from a step that they share it would be compiled into every loop.
    pub fn compared(self, stretch: &[u8]) -> Result<(), Refusal>
        ensures { outcome result ≡ compared_at stretch.now self }
    {
        let at = self.at;
        if repeated_at(stretch, self.first, at) {
            return Err(again(at));
        }
        Ok(())
    }

    // After the next variant, which has that many letters and ends before `next`. Numbers wrap, since a test here would cost every
    // variant; in a walk none does.
    pub fn past(self, stretch: &[u8], next: usize, letters: usize) -> Cursor
        ensures { result ≡ past_at stretch.now self next letters }
    {
        let left = wrapping_add_usize(self.left, usize::MAX);
        let at = self.at;
        let count = self.count;
        let more = counted(letters);
        let size = wrapping_add_usize(self.size, more);
        let prints = self.prints | print(stretch, count, at);
        Cursor {
            count,
            left,
            first: self.first,
            at: next,
            prints,
            size,
        }
    }
}
