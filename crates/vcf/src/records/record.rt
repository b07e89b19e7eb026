// One record: a line of at least eight fields. What is asked of it whatever the window is.
ghost use Rattle.std.specs.Prelude.{◌≡◌, cond, None, Some};
ghost use Rattle.vcf.specs.Records.{position, field, allele, alternates, alternates_sound, is_record, comment, are_alleles, none};

use crate::records::pieces::{COMMA, TAB, end_of, more_than, piece};
use crate::records::position::position;
use text::compare::same;
use text::letter::first_wrong;

// A line that is skipped.
pub fn is_comment(line: &[u8]) -> bool
    ensures { result ≡ comment line.now }
{
    if line.len() == 0 {
        return false;
    }
    line[0] == b'#'
}

// The field of that number.
pub fn field(line: &[u8], k: usize) -> &[u8]
    ensures { result.now ≡ field line.now k }
{
    piece(line, TAB, k)
}

// An allele: letters, at least one.
fn is_allele(bytes: &[u8]) -> bool
    ensures { result ≡ allele bytes.now }
{
    if bytes.len() == 0 {
        return false;
    }
    first_wrong(bytes) == bytes.len()
}

// Whether an ALT field says that there is no allele besides REF.
#[tactic(auto, unfolding(crate::specs::Records::none))]
pub fn is_none(alt: &[u8]) -> bool
    ensures { result ≡ none alt.now }
{
    same(alt, b".")
}

// The alleles of a record: its REF, and its ALT field.
#[derive(Clone, Copy)]
pub struct Alleles<'a> {
    pub reference: &'a [u8],
    pub alt: &'a [u8],
}

// Whether every piece between commas is an allele.
fn are_alleles(alt: &[u8]) -> bool
    ensures { result ≡ are_alleles alt.now }
{
    let mut from = 0;
    // Goes from comma to comma, and takes what follows the last one too.
    loop {
        let end = end_of(alt, COMMA, from);
        if !is_allele(&alt[from..end]) {
            return false;
        }
        if end == alt.len() {
            return true;
        }
        from = end + 1;
    }
}

// Whether an ALT field is `.`, or 1 to 254 alleles.
fn are_alternates(alt: &[u8]) -> bool
    ensures { result ≡ alternates_sound alt.now }
{
    if is_none(alt) {
        return true;
    }
    if more_than(alt, COMMA, 254) {
        return false;
    }
    are_alleles(alt)
}

// The position of a line that is a sound record of the chromosome; none for any other.
pub fn sound(line: &[u8], name: &[u8]) -> Option<usize>
    ensures { result ≡ cond (is_record name.now line.now) (Some (position line.now)) None }
{
    if !more_than(line, TAB, 7) {
        return None;
    }
    let chromosome = field(line, 0);
    if !same(chromosome, name) {
        return None;
    }
    let reference = field(line, 3);
    if !is_allele(reference) {
        return None;
    }
    let alt = field(line, 4);
    if !are_alternates(alt) {
        return None;
    }
    let stated = field(line, 1);
    position(stated)
}
