// The first hit for C: whether a stretch is clear, and if not, in which segment an occurrence ends first. What stands after the hit is
// not read. The stretches of a text are asked in order, the state after each clear one handed to the next.
ghost use Rattle.std.specs.Prelude.{◌≡◌};
ghost use Rattle.cerantuh.specs.Forms.{first_answer, first_block};

use crate::forms::block::{code, two};
use search::{First, State};
use text::limits;
use text::strand::Strand;

// The first ending segment, and no state; or "none", and the state after the stretch; of the pattern as the strand reads it. The
// block's room is asked last, of a hit too.
pub fn first_hit(
    pattern: &[u8],
    strand: Strand,
    state: u64,
    stretch: &[u8],
    block: &mut [u8],
) -> u64
    ensures value { result ≡ first_answer pattern.now strand state stretch.now block.old }
    ensures block_after { block.new ≡ first_block pattern.now strand state stretch.now block.old }
{
    let before = State { bits: state };
    match before.first(pattern, strand, stretch) {
        First::Refused(wrong) => code(wrong),
        First::Ends(segment) => two(segment as u64, 0, &mut *block),
        First::None(after) => two(limits::NO_SEGMENT as u64, after.bits, &mut *block),
    }
}
