// The rows over a stretch, in two passes. The search from the fresh state checks the stretch and tells row 0. The other rows take a
// pass of their own, which most texts let end after some segments: a lone length soon meets letters that do not fit.
ghost use Rattle.std.specs.Prelude.{◌≡◌, [], length};
ghost use Rattle.layout.specs.Bytes.{word};
ghost use Rattle.layout.specs.Pieces.{most_in_stretch};
ghost use Rattle.search.specs.Masks.{Masks};
ghost use Rattle.card.specs.Held.{Bases, rows_in, Full};
ghost use Rattle.card.specs.Cards.{row_in};
ghost use Rattle.card.specs.Rows.{Sound, Rowed, RowsOf, RowZero, AreOver, carding, rowed};

use crate::follow::Row;
use crate::rows::ends::first_end;
use crate::rows::start::Rows;
use layout::walk::Walk;
use search::{Sought, State, masks};
use text::state::low;
use text::strand::Strand;
use text::{Refusal, limits};

// What a stretch does: how many segments it has, and its rows.
#[derive(Clone, Copy)]
pub struct Summed {
    pub segments: u32,
    pub rows: Rows,
}

impl Rows {
    // Takes the rows 1 to m - 1 over the segments of a sound stretch. Once no length is left in any row, none has anything left to do.
    // Sizes are not asked for.
    fn over_stretch(&mut self, pattern: &[u8], masks: &[u64; 256], stretch: &[u8])
        requires { Bases (length pattern.now) × Masks pattern.now masks.now × Sound stretch.now (word stretch.now 0)
            × Rowed pattern.now [] (rows_in self.old.exits self.old.firsts) }
        ensures { Full self.new.exits self.new.firsts
            × RowsOf pattern.now stretch.now (rows_in self.new.exits self.new.firsts) }
    {
        let mut live = low(pattern.len()) - 1;
        let Ok(mut walk) = Walk::open(stretch) else {
            // A sound stretch has its count.
            return;
        };
        // Each segment tells where the next begins: no iterator does.
        while walk.passed < walk.count {
            if live == 0 {
                return;
            }
            let number = walk.passed as u32;
            let behind = self.over_segment(pattern, masks, live, stretch, walk.at, number);
            live = behind.live;
            walk = walk.past(behind.next, 0);
        }
    }
}

// The rows over a sound stretch of that many segments, whose row 0 is known.
fn told(pattern: &[u8], stretch: &[u8], segments: usize, zeroth: Row) -> Summed
    requires { RowZero pattern.now stretch.now segments (row_in zeroth) }
    ensures { AreOver pattern.now stretch.now result }
{
    let mut rows = Rows::lone(pattern.len());
    rows.over_stretch(pattern, &masks(pattern), stretch);
    rows.exits[0] = zeroth.exit;
    rows.firsts[0] = zeroth.first;
    Summed {
        segments: segments as u32,
        rows,
    }
}

// The rows over a stretch, by way of a buffer for the marks of as many segments as a stretch can have.
fn by_way_of(pattern: &[u8], stretch: &[u8], marks: &mut [u8]) -> Result<Summed, Refusal>
    requires { length marks.old ≡ most_in_stretch }
    ensures { result ≡ rowed (carding pattern.now stretch.now) }
{
    // Stays a match: the name and shape of what `through` answers are fixed.
    match State::FRESH.through(pattern, Strand::Given, stretch, &mut *marks) {
        Sought::Refused(wrong) => Err(wrong),
        Sought::Marked {
            segments,
            size: _,
            ends: _,
            state,
        } => {
            let zeroth = Row {
                exit: state.bits,
                first: first_end(&marks[..segments]),
            };
            Ok(told(pattern, stretch, segments, zeroth))
        }
    }
}

// The rows over a stretch: refusals 1, 2, 3 of the pattern, then those of the stretch.
pub fn over(pattern: &[u8], stretch: &[u8]) -> Result<Summed, Refusal>
    ensures { result ≡ rowed (carding pattern.now stretch.now) }
{
    // A segment has at least 3 bytes.
    let mut marks = [0u8; limits::GREATEST_STRETCH / layout::LEAST_SEGMENT];
    by_way_of(pattern, stretch, &mut marks)
}
