// The search of a stretch from a state, for C: a text of many stretches is searched one after another, the state after each handed to the
// next, so that nothing is lost at a cut.
ghost use Rattle.std.specs.Prelude.{◌≡◌};
ghost use Rattle.text.specs.declared.strand.Strand.TheVariants.{Given, Opposite};
ghost use Rattle.cerantuh.specs.Forms.{from_answer, from_marks, from_block};

use crate::forms::search_from;
use text::strand::Strand;

// The search of the pattern as given, from a state.
#[unsafe(no_mangle)]
pub extern "C" fn cerantuh_search_from(
    pattern: &[u8],
    state: u64,
    stretch: &[u8],
    marks: &mut [u8],
    block: &mut [u8],
) -> u64
    ensures value { result ≡ from_answer pattern.now state stretch.now marks.old block.old }
    ensures marks_after { marks.new ≡ from_marks pattern.now Given state
        stretch.now marks.old block.old }
    ensures block_after { block.new ≡ from_block pattern.now Given state
        stretch.now marks.old block.old }
{
    search_from(
        pattern,
        Strand::Given,
        state,
        stretch,
        &mut *marks,
        &mut *block,
    )
}

// The search on the opposite strand, from a state of that strand's search.
#[unsafe(no_mangle)]
pub extern "C" fn cerantuh_search_from_opposite(
    pattern: &[u8],
    state: u64,
    stretch: &[u8],
    marks: &mut [u8],
    block: &mut [u8],
) -> u64
    ensures value { result ≡ from_answer pattern.now state stretch.now marks.old block.old }
    ensures marks_after { marks.new ≡ from_marks pattern.now Opposite state
        stretch.now marks.old block.old }
    ensures block_after { block.new ≡ from_block pattern.now Opposite state
        stretch.now marks.old block.old }
{
    search_from(
        pattern,
        Strand::Opposite,
        state,
        stretch,
        &mut *marks,
        &mut *block,
    )
}
