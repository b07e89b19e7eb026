// The rows over one segment: what becomes of each lone length carried in, 1 to m - 1. The union of their states takes one
// pass over each variant; each row is then a shift and a mask.
ghost use Rattle.std.specs.Prelude.{◌≡◌, ◌≤◌, ◌<◌, length};
ghost use Rattle.layout.specs.Reading.{Readable};
ghost use Rattle.card.specs.Held.{rows_in, Full};
ghost use Rattle.card.specs.RowStep.{Alive, Covers, Spread, VariantOver, Settled, SegmentOver};

use crate::rows::carry::carry;
use crate::rows::ends::sooner;
use crate::rows::start::Rows;
use layout::cursor::Cursor;
use text::limits;

// What a segment leaves: the union of the rows' states, and the place after it.
#[derive(Clone, Copy)]
pub struct Behind {
    pub live: u64,
    pub next: usize,
}

impl Rows {
    // Adds to each row's next state what `len` letters make of its state, as far as `reached` lets it pass.
    fn spread(&self, m: usize, len: usize, reached: u64, next: &mut [u64; limits::GREATEST_PATTERN])
        requires { (m ≤ 64) × (len < 64) }
        ensures { Spread m len reached self.now.exits next.old next.new }
    {
        for q in 1..m {
            next[q] |= (self.exits[q] << len) & reached;
        }
    }

    // Adds to each row's next state what the variant makes of its state. Answers which of the lengths carried in end an occurrence in it.
    fn over_variant(
        &self,
        pattern: &[u8],
        masks: &[u64; 256],
        live: u64,
        variant: &[u8],
        next: &mut [u64; limits::GREATEST_PATTERN],
    ) -> u64
        requires { Alive pattern.now masks.now live × Covers (length pattern.now) live self.now.exits }
        ensures { VariantOver pattern.now live variant.now self.now.exits
            next.old next.new result }
    {
        let moved = carry(pattern, masks, live, variant);
        if moved.reached != 0 {
            let len = variant.len();
            self.spread(pattern.len(), len, moved.reached, &mut *next);
        }
        moved.finished
    }

    // Gives each row its next state, and a first end where segment k is its first. Answers the union of the states.
    fn settle(
        &mut self,
        m: usize,
        finished: u64,
        k: u32,
        next: &[u64; limits::GREATEST_PATTERN],
    ) -> u64
        requires { m ≤ 64 }
        ensures { Full self.new.exits self.new.firsts
            × Settled m finished k next.now (rows_in self.old.exits self.old.firsts)
            (rows_in self.new.exits self.new.firsts) result }
    {
        let mut live = 0;
        for q in 1..m {
            let ends = self.exits[q] & finished != 0;
            self.firsts[q] = sooner(self.firsts[q], ends, k);
            self.exits[q] = next[q];
            live |= next[q];
        }
        live
    }

    // Takes the rows over the segment at `at`, a sound one with the number k.
    pub fn over_segment(
        &mut self,
        pattern: &[u8],
        masks: &[u64; 256],
        live: u64,
        stretch: &[u8],
        at: usize,
        k: u32,
    ) -> Behind
        requires { Alive pattern.now masks.now live × Covers (length pattern.now) live self.old.exits
            × Readable stretch.now at }
        ensures { Full self.new.exits self.new.firsts
            × SegmentOver pattern.now stretch.now at k (rows_in self.old.exits self.old.firsts)
            (rows_in self.new.exits self.new.firsts) result.live result.next }
    {
        let Ok(mut cursor) = Cursor::enter(stretch, at) else {
            // A sound segment has its count.
            return Behind { live, next: at };
        };
        let mut new = [0u64; limits::GREATEST_PATTERN];
        let mut finished = 0;
        // Each variant tells where the next begins: no iterator does.
        while 0 < cursor.left {
            let Ok(part) = cursor.head(stretch) else {
                // In a sound segment no variant is cut off.
                return Behind { live, next: at };
            };
            let variant = &stretch[part.start..part.next];
            let ended = self.over_variant(pattern, masks, live, variant, &mut new);
            finished |= ended;
            cursor = cursor.past(stretch, part.next, variant.len());
        }
        let alive = self.settle(pattern.len(), finished, k, &new);
        Behind {
            live: alive,
            next: cursor.at,
        }
    }
}
