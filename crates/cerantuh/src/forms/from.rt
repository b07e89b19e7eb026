// The search of a stretch from a state, for C: a text of many stretches is searched one after another, the state after each handed to the
// next, so that nothing is lost at a cut. The block's room is asked before the search, since a search that is accepted has written its
// marks.
ghost use Rattle.std.specs.Prelude.{◌≡◌, ◌^◌, ◌≤◌, ◌<◌, length};
ghost use Rattle.layout.specs.Bytes.{left_by};
ghost use Rattle.search.specs.Answers.{told_sought};
ghost use Rattle.cerantuh.specs.Forms.{coded, seen_block, seeking_into, from_answer, from_marks, from_block};

use crate::forms::block::{code, put};
use search::{Sought, State};
use text::refusal;
use text::strand::Strand;

// The bytes of the results.
const FROM_BLOCK: usize = 32;

// The answer where there is no room for the results: what the search refuses before 10, else 10. Nothing is written. No
// refusal depends on the strand.
fn roomless(pattern: &[u8], state: State, stretch: &[u8]) -> u64
    ensures { result ≡ coded (seeking_into pattern.now state.bits stretch.now 0 0) }
{
    let mut none = [0u8; 0];
    match state.through(pattern, Strand::Given, stretch, &mut none) {
        Sought::Refused(wrong) => code(wrong),
        Sought::Marked { .. } => refusal::BUFFER_SHORT,
    }
}

// The answer of a search, with its results in a block that has room for them.
fn told(sought: Sought, block: &mut [u8]) -> u64
    requires { (32 ≤ length block.old) × (coded (told_sought sought) < 2 ^ 64) }
    ensures value { result ≡ coded (told_sought sought) }
    ensures block_after { block.new ≡ left_by seen_block (told_sought sought) block.old }
{
    match sought {
        Sought::Refused(wrong) => code(wrong),
        Sought::Marked {
            segments,
            size,
            ends,
            state,
        } => {
            put(segments as u64, &mut *block, 0);
            put(size as u64, &mut *block, 8);
            put(ends as u64, &mut *block, 16);
            put(state.bits, &mut *block, 24);
            0
        }
    }
}

// The search from a state, of the pattern as the strand reads it.
pub fn search_from(
    pattern: &[u8],
    strand: Strand,
    state: u64,
    stretch: &[u8],
    marks: &mut [u8],
    block: &mut [u8],
) -> u64
    ensures value { result ≡ from_answer pattern.now state stretch.now marks.old block.old }
    ensures marks_after { marks.new ≡ from_marks pattern.now strand state
        stretch.now marks.old block.old }
    ensures block_after { block.new ≡ from_block pattern.now strand state
        stretch.now marks.old block.old }
{
    let before = State { bits: state };
    if block.len() < FROM_BLOCK {
        return roomless(pattern, before, stretch);
    }
    let sought = before.through(pattern, strand, stretch, &mut *marks);
    told(sought, &mut *block)
}
