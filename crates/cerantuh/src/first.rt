// The first hit for C: whether a stretch is clear, and if not, in which segment an occurrence ends first. What stands after the hit is
// not read. The stretches of a text are asked in order, the state after each clear one handed to the next.
ghost use Rattle.std.specs.Prelude.{◌≡◌};
ghost use Rattle.text.specs.declared.strand.Strand.TheVariants.{Given, Opposite};
ghost use Rattle.cerantuh.specs.Forms.{first_answer, first_block};

use crate::forms::first_hit;
use text::strand::Strand;

// The first hit of the pattern as given, from a state.
#[unsafe(no_mangle)]
pub extern "C" fn cerantuh_first(
    pattern: &[u8],
    state: u64,
    stretch: &[u8],
    block: &mut [u8],
) -> u64
    ensures value { result ≡ first_answer pattern.now Given state stretch.now block.old }
    ensures block_after { block.new ≡ first_block pattern.now Given state stretch.now block.old }
{
    first_hit(pattern, Strand::Given, state, stretch, &mut *block)
}

// The first hit on the opposite strand, from a state of that strand's search.
#[unsafe(no_mangle)]
pub extern "C" fn cerantuh_first_opposite(
    pattern: &[u8],
    state: u64,
    stretch: &[u8],
    block: &mut [u8],
) -> u64
    ensures value { result ≡ first_answer pattern.now Opposite state stretch.now block.old }
    ensures block_after { block.new ≡ first_block pattern.now Opposite state stretch.now block.old }
{
    first_hit(pattern, Strand::Opposite, state, stretch, &mut *block)
}
