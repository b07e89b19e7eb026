// One segment: its variants one after another, by either method, and the state after them.
ghost use Rattle.std.specs.Prelude.{◌≡◌};
ghost use Rattle.search.specs.Step.{told_passed, segment_pass};
ghost use Rattle.search.specs.Masks.{StateOf};

use crate::method::Method;
use crate::state::State;
use layout::cursor::Cursor;
use text::Refusal;

// How far a step over a segment has come in the bytes: the place after it, its size, the state there, and whether an occurrence
// ends in it.
#[derive(Clone, Copy)]
pub struct Passed {
    pub next: usize,
    pub size: usize,
    pub state: State,
    pub ends: bool,
}

impl State {
    // The state after the segment at `at`: refusals 5 to 8. It is the union of what the segment's variants lead to. The letters of a
    // variant are tested and stepped over in one pass.
    pub(crate) fn over<M: Method>(
        self,
        method: M,
        stretch: &[u8],
        at: usize,
    ) -> Result<Passed, Refusal>
        requires { M.founded method × StateOf (M.pattern method) self.bits }
        ensures { told_passed result ≡ segment_pass (M.pattern method) self.bits stretch.now at }
    {
        let mut cursor = Cursor::enter(stretch, at)?;
        let bits = self.bits;
        let mut out = 0xffff_ffff_ffff_fffe;
        let mut missed = 0xffff_ffff_ffff_ffff;
        // Stays a while: the cursor counts the variants, and each step may refuse.
        while 0 < cursor.left {
            let part = cursor.head(stretch)?;
            let letters = &stretch[part.start..part.next];
            let scanned = method.scan(bits, missed, letters);
            if scanned.wrong {
                return Err(cursor.misspelt(stretch));
            }
            if cursor.suspects(stretch) {
                cursor.compared(stretch)?;
            }
            out &= scanned.out;
            missed = scanned.missed;
            cursor = cursor.past(stretch, part.next, letters.len());
        }
        let high = 0xffff_ffff_ffff_ffff << (method.bases() - 1);
        let state = State {
            bits: !(out | (high << 1)),
        };
        Ok(Passed {
            next: cursor.at,
            size: cursor.size,
            state,
            ends: missed < high,
        })
    }
}
