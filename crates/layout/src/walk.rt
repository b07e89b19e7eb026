// A walk over the segments of a stretch, as a value that stands before the next of them. Every walk over a stretch takes these steps:
// open; then for each segment its own pass over it, by a cursor, and past; and end. A lone segment is a walk of its own. Any bytes and
// any numbers are fine; whether the bytes are too many is asked before, by `fits`.
ghost use Rattle.std.specs.Prelude.{◌≡◌};
ghost use Rattle.text.specs.Refusal.{outcome};
ghost use Rattle.layout.specs.Bytes.{word_at};
ghost use Rattle.layout.specs.Walk.{begun, opened_at, passed_to, end_at};

use crate::number::{pair, word_at};
use crate::sizes::FIRST_SEGMENT;
use std::num::wrapping_add_usize;
use text::{Refusal, limits, refusal};

#[derive(Clone, Copy)]
pub struct Walk {
    // How many segments there are, and how many of them were passed.
    pub count: usize,
    pub passed: usize,
    // Where the next one stands.
    pub at: usize,
    // The size of those that were passed.
    pub size: usize,
}

// How many segments a stretch states; none where its count is cut off.
pub fn stated(stretch: &[u8]) -> usize
    ensures { result ≡ word_at stretch.now 0 }
{
    word_at(stretch, 0)
}

impl Walk {
    // The segments of a stretch, as many as it states: refusal 5 where the count is cut off.
    pub fn open(stretch: &[u8]) -> Result<Walk, Refusal>
        ensures { outcome result ≡ opened_at stretch.now }
    {
        if stretch.len() < 2 {
            return Err(Refusal {
                number: refusal::BYTES_END,
                place: 0,
            });
        }
        let count = pair(stretch, 0);
        Ok(Walk {
            count,
            passed: 0,
            at: FIRST_SEGMENT,
            size: 0,
        })
    }

    // A lone segment, which has no count before it.
    pub fn lone() -> Walk
        ensures { result ≡ begun 1 0 }
    {
        Walk {
            count: 1,
            passed: 0,
            at: 0,
            size: 0,
        }
    }

    // After the next segment, which has that size and ends before `next`. Numbers wrap, since a test here would cost every segment; in
    // a walk none does.
    pub fn past(self, next: usize, size: usize) -> Walk
        ensures { result ≡ passed_to self next size }
    {
        let passed = wrapping_add_usize(self.passed, 1);
        let sum = wrapping_add_usize(self.size, size);
        Walk {
            count: self.count,
            passed,
            at: next,
            size: sum,
        }
    }

    // What is asked after the last segment: refusal 9, then 16.
    pub fn end(self, stretch: &[u8]) -> Result<(), Refusal>
        ensures { outcome result ≡ end_at stretch.now self }
    {
        if self.at != stretch.len() {
            return Err(Refusal {
                number: refusal::BYTES_LEFT,
                place: self.at,
            });
        }
        if limits::MOST_IN_STRETCH < self.count {
            return Err(Refusal {
                number: refusal::SEGMENTS_MANY,
                place: 0,
            });
        }
        Ok(())
    }
}
