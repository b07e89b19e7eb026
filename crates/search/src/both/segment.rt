// One segment on both strands: its variants one after another, each read once, and the states after them.
ghost use Rattle.std.specs.Prelude.{◌≡◌};
ghost use Rattle.text.specs.Strand.{opposite};
ghost use Rattle.search.specs.Masks.{StateOf};
ghost use Rattle.search.specs.Step.{told_passed, segment_pass};
ghost use Rattle.search.specs.Either.{evens, odds, Vectors, passed_given, passed_opposite};

use crate::both::words::{Pair, scan_both};
use layout::cursor::Cursor;
use text::Refusal;

// How far a step over a segment has come in the bytes: the place after it, its size, the states there, and on which strand an
// occurrence ends in it.
#[derive(Clone, Copy)]
pub struct PassedBoth {
    pub next: usize,
    pub size: usize,
    pub state: Pair,
    pub given: bool,
    pub opposite: bool,
}

impl Pair {
    // The states after the segment at `at`: refusals 5 to 8.
    pub(crate) fn over(
        self,
        pattern: &[u8],
        table: &[u64; 512],
        classes: &[u8; 256],
        stretch: &[u8],
        at: usize,
    ) -> Result<PassedBoth, Refusal>
        requires vectors { Vectors pattern.now (evens table.now) classes.now × StateOf pattern.now self.given }
        requires vectors_2 { Vectors (opposite pattern.now) (odds table.now) classes.now
            × StateOf (opposite pattern.now) self.opposite }
        ensures result_value { told_passed (passed_given result) ≡ segment_pass pattern.now self.given stretch.now at }
        ensures result_value_2 { told_passed (passed_opposite result)
            ≡ segment_pass (opposite pattern.now) self.opposite stretch.now at }
    {
        let mut cursor = Cursor::enter(stretch, at)?;
        let mut words = Pair::UNREACHED;
        let mut missed = Pair::UNMET;
        // Stays a while: the cursor counts the variants, and each step may refuse.
        while 0 < cursor.left {
            let part = cursor.head(stretch)?;
            let letters = &stretch[part.start..part.next];
            let scanned = scan_both(table, classes, self, missed, letters);
            if scanned.wrong {
                return Err(cursor.misspelt(stretch));
            }
            if cursor.suspects(stretch) {
                cursor.compared(stretch)?;
            }
            words = words.and(scanned.out);
            missed = scanned.missed;
            cursor = cursor.past(stretch, part.next, letters.len());
        }
        let high = 0xffff_ffff_ffff_ffff << (pattern.len() - 1);
        let state = Pair {
            given: !(words.given | (high << 1)),
            opposite: !(words.opposite | (high << 1)),
        };
        Ok(PassedBoth {
            next: cursor.at,
            size: cursor.size,
            state,
            given: missed.given < high,
            opposite: missed.opposite < high,
        })
    }
}
