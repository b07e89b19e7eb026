// The feed for C.
ghost use Rattle.std.specs.Prelude.{◌≡◌};
ghost use Rattle.text.specs.declared.strand.Strand.TheVariants.{Given, Opposite};
ghost use Rattle.cerantuh.specs.Forms.{feed_answer, feed_block};

use crate::forms::feed;
use text::strand::Strand;

// The feed of the pattern as given.
#[unsafe(no_mangle)]
pub extern "C" fn cerantuh_feed(pattern: &[u8], state: u64, segment: &[u8], block: &mut [u8]) -> u64
    ensures value { result ≡ feed_answer pattern.now Given state segment.now block.old }
    ensures block_after { block.new ≡ feed_block pattern.now Given state segment.now block.old }
{
    feed(pattern, Strand::Given, state, segment, &mut *block)
}

// The feed on the opposite strand.
#[unsafe(no_mangle)]
pub extern "C" fn cerantuh_feed_opposite(
    pattern: &[u8],
    state: u64,
    segment: &[u8],
    block: &mut [u8],
) -> u64
    ensures value { result ≡ feed_answer pattern.now Opposite state segment.now block.old }
    ensures block_after { block.new ≡ feed_block pattern.now Opposite state segment.now block.old }
{
    feed(pattern, Strand::Opposite, state, segment, &mut *block)
}
