// The searches for C.
ghost use Rattle.std.specs.Prelude.{◌≡◌};
ghost use Rattle.text.specs.Strand.{opposite};
ghost use Rattle.search.specs.Answers.{sums_of, marked};
ghost use Rattle.search.specs.Either.{either_marks, either_sums};
ghost use Rattle.cerantuh.specs.Forms.{search_answer, search_marks, search_block};

use crate::forms::{Search, search_either, search_strand};
use text::strand::Strand;

// The search by bit-vectors.
#[unsafe(no_mangle)]
pub extern "C" fn cerantuh_search_bits(
    pattern: &[u8],
    stretch: &[u8],
    marks: &mut [u8],
    block: &mut [u8],
) -> u64
    ensures value { result ≡ search_answer pattern.now stretch.now marks.old block.old }
    ensures marks_after { marks.new ≡ search_marks (marked pattern.now)
        pattern.now stretch.now marks.old block.old }
    ensures block_after { block.new ≡ search_block (sums_of pattern.now)
        pattern.now stretch.now marks.old block.old }
{
    search_strand(
        Search::Bits,
        pattern,
        Strand::Given,
        stretch,
        &mut *marks,
        &mut *block,
    )
}

// The search by border tables: the same promise.
#[unsafe(no_mangle)]
pub extern "C" fn cerantuh_search_borders(
    pattern: &[u8],
    stretch: &[u8],
    marks: &mut [u8],
    block: &mut [u8],
) -> u64
    ensures value { result ≡ search_answer pattern.now stretch.now marks.old block.old }
    ensures marks_after { marks.new ≡ search_marks (marked pattern.now)
        pattern.now stretch.now marks.old block.old }
    ensures block_after { block.new ≡ search_block (sums_of pattern.now)
        pattern.now stretch.now marks.old block.old }
{
    search_strand(
        Search::Borders,
        pattern,
        Strand::Given,
        stretch,
        &mut *marks,
        &mut *block,
    )
}

// The search by bit-vectors on the opposite strand.
#[unsafe(no_mangle)]
pub extern "C" fn cerantuh_search_bits_opposite(
    pattern: &[u8],
    stretch: &[u8],
    marks: &mut [u8],
    block: &mut [u8],
) -> u64
    ensures value { result ≡ search_answer pattern.now stretch.now marks.old block.old }
    ensures marks_after { marks.new ≡ search_marks (marked (opposite pattern.now))
        pattern.now stretch.now marks.old block.old }
    ensures block_after { block.new ≡ search_block (sums_of (opposite pattern.now))
        pattern.now stretch.now marks.old block.old }
{
    search_strand(
        Search::Bits,
        pattern,
        Strand::Opposite,
        stretch,
        &mut *marks,
        &mut *block,
    )
}

// The search by border tables on the opposite strand: the same promise.
#[unsafe(no_mangle)]
pub extern "C" fn cerantuh_search_borders_opposite(
    pattern: &[u8],
    stretch: &[u8],
    marks: &mut [u8],
    block: &mut [u8],
) -> u64
    ensures value { result ≡ search_answer pattern.now stretch.now marks.old block.old }
    ensures marks_after { marks.new ≡ search_marks (marked (opposite pattern.now))
        pattern.now stretch.now marks.old block.old }
    ensures block_after { block.new ≡ search_block (sums_of (opposite pattern.now))
        pattern.now stretch.now marks.old block.old }
{
    search_strand(
        Search::Borders,
        pattern,
        Strand::Opposite,
        stretch,
        &mut *marks,
        &mut *block,
    )
}

// The search of both strands at once.
#[unsafe(no_mangle)]
pub extern "C" fn cerantuh_search_either(
    pattern: &[u8],
    stretch: &[u8],
    marks: &mut [u8],
    block: &mut [u8],
) -> u64
    ensures value { result ≡ search_answer pattern.now stretch.now marks.old block.old }
    ensures marks_after { marks.new ≡ search_marks (either_marks pattern.now)
        pattern.now stretch.now marks.old block.old }
    ensures block_after { block.new ≡ search_block (either_sums pattern.now)
        pattern.now stretch.now marks.old block.old }
{
    search_either(pattern, stretch, &mut *marks, &mut *block)
}
