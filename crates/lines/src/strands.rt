// The strands that are screened, by the words of the command line: `given` is document 01's program.
ghost use Rattle.std.specs.Prelude.{◌≡◌, length};
ghost use Rattle.text.specs.Refusal.{ok, after};
ghost use Rattle.layout.specs.Bytes.{left_by};
ghost use Rattle.search.specs.Answers.{searching, told_searched};
ghost use Rattle.lines.specs.Screening.{named_by, sums_on, marks_on};

use search::{Searched, by_bits, either};
use text::compare::same;
use text::strand::Strand;

// The strands that are screened: one of them, or both at once.
// Stays an enum of its own: both are no missing one.
#[derive(Clone, Copy)]
pub enum Strands {
    One(Strand),
    Either,
}

// The strands that a word names: `given`, `opposite` or `either`.
pub fn by_word(word: &[u8]) -> Option<Strands>
    ensures { result ≡ named_by word.now }
{
    if same(word, b"given") {
        return Some(Strands::One(Strand::Given));
    }
    if same(word, b"opposite") {
        return Some(Strands::One(Strand::Opposite));
    }
    if same(word, b"either") {
        return Some(Strands::Either);
    }
    None
}

// The search on these strands.
pub fn search_on(strands: Strands, pattern: &[u8], stretch: &[u8], marks: &mut [u8]) -> Searched
    ensures result_value { told_searched result ≡ after (searching pattern.now stretch.now (length marks.old))
        (λ t. ok (sums_on strands pattern.now t)) }
    ensures marks_after { marks.new ≡ left_by (marks_on strands pattern.now)
        (searching pattern.now stretch.now (length marks.old)) marks.old }
{
    match strands {
        Strands::One(strand) => by_bits(pattern, strand, stretch, &mut *marks),
        Strands::Either => either(pattern, stretch, &mut *marks),
    }
}
