// The feed for C.
ghost use Rattle.std.specs.Prelude.{◌≡◌};
ghost use Rattle.cerantuh.specs.Forms.{feed_answer, feed_block};

use crate::forms::block::{code, two};
use search::{Fed, State};
use text::strand::Strand;

// The state after a lone segment, and 1 where an occurrence ends in it, of the pattern as the strand reads it. The block's room is asked
// last.
pub fn feed(pattern: &[u8], strand: Strand, state: u64, segment: &[u8], block: &mut [u8]) -> u64
    ensures value { result ≡ feed_answer pattern.now strand state segment.now block.old }
    ensures block_after { block.new ≡ feed_block pattern.now strand state segment.now block.old }
{
    let before = State { bits: state };
    match before.feed(pattern, strand, segment) {
        Fed::Refused(wrong) => code(wrong),
        Fed::Next { state: after, ends } => two(after.bits, ends as u64, &mut *block),
    }
}
