// The searches for C. The block's room is asked before the search, since a search that is accepted has written its marks.
ghost use Rattle.std.specs.Prelude.{◌≡◌, ◌^◌, ◌≤◌, ◌<◌, length};
ghost use Rattle.layout.specs.Bytes.{left_by};
ghost use Rattle.text.specs.Strand.{on_strand};
ghost use Rattle.search.specs.Answers.{sums_of, marked, told_searched};
ghost use Rattle.search.specs.Either.{either_marks, either_sums};
ghost use Rattle.cerantuh.specs.Forms.{coded, sums_block, searching_into, search_answer, search_marks, search_block};

use crate::forms::block::{code, put};
use search::{Searched, by_bits, by_borders, either};
use stretch::Checked;
use text::pattern::check;
use text::refusal;
use text::strand::Strand;

// The bytes of a search's results.
const SEARCH_BLOCK: usize = 24;

// The answer where there is no room for the results: what the search refuses before 10, else 10. Nothing is written.
fn roomless(pattern: &[u8], stretch: &[u8]) -> u64
    ensures { result ≡ coded (searching_into pattern.now stretch.now 0 0) }
{
    if let Err(wrong) = check(pattern) {
        return code(wrong);
    }
    match stretch::check(stretch) {
        Checked::Refused(wrong) => code(wrong),
        Checked::Sound { .. } => refusal::BUFFER_SHORT,
    }
}

// The answer of a search, with its results in a block that has room for them.
fn told(searched: Searched, block: &mut [u8]) -> u64
    requires { (24 ≤ length block.old) × (coded (told_searched searched) < 2 ^ 64) }
    ensures value { result ≡ coded (told_searched searched) }
    ensures block_after { block.new ≡ left_by sums_block (told_searched searched) block.old }
{
    match searched {
        Searched::Refused(wrong) => code(wrong),
        Searched::Marked {
            segments,
            size,
            ends,
        } => {
            put(segments as u64, &mut *block, 0);
            put(size as u64, &mut *block, 8);
            put(ends as u64, &mut *block, 16);
            0
        }
    }
}

// Which search a form runs. Stays an enum: both promise the same, so a closure would make the callers prove it.
#[derive(Clone, Copy)]
pub enum Search {
    Bits,
    Borders,
}

// A search form: the block's room first, then the search, then its results.
pub fn search_strand(
    search: Search,
    pattern: &[u8],
    strand: Strand,
    stretch: &[u8],
    marks: &mut [u8],
    block: &mut [u8],
) -> u64
    ensures value { result ≡ search_answer pattern.now stretch.now marks.old block.old }
    ensures marks_after { marks.new ≡ search_marks (marked (on_strand strand pattern.now))
        pattern.now stretch.now marks.old block.old }
    ensures block_after { block.new ≡ search_block (sums_of (on_strand strand pattern.now))
        pattern.now stretch.now marks.old block.old }
{
    if block.len() < SEARCH_BLOCK {
        return roomless(pattern, stretch);
    }
    let searched = match search {
        Search::Bits => by_bits(pattern, strand, stretch, &mut *marks),
        Search::Borders => by_borders(pattern, strand, stretch, &mut *marks),
    };
    told(searched, &mut *block)
}

// The search of both strands at once.
pub fn search_either(pattern: &[u8], stretch: &[u8], marks: &mut [u8], block: &mut [u8]) -> u64
    ensures value { result ≡ search_answer pattern.now stretch.now marks.old block.old }
    ensures marks_after { marks.new ≡ search_marks (either_marks pattern.now)
        pattern.now stretch.now marks.old block.old }
    ensures block_after { block.new ≡ search_block (either_sums pattern.now)
        pattern.now stretch.now marks.old block.old }
{
    if block.len() < SEARCH_BLOCK {
        return roomless(pattern, stretch);
    }
    let searched = either(pattern, stretch, &mut *marks);
    told(searched, &mut *block)
}
