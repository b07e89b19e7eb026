// What is said on standard error: file, line and reason. Files are named as the command line names them.
use files::{Told, WORD, say, say_words, word};
use std::fmt::Display;
use text::{Refusal, refusal};
use vcf::records::record::field;

// The words of the command line: the reference, the chromosome, the variant file, the name of the text, and the option. They stay numbers:
// the system counts words.
pub const REFERENCE: usize = 1;

pub const CHROMOSOME: usize = 2;

pub const VARIANTS: usize = 3;

pub const TEXT: usize = 4;

pub const UNENDED: usize = 5;

// Why a record has no room in any stretch.
pub const TOO_LONG: &str =
    "the record is too long: alone it needs a stretch of more than 32,768 bytes";

// What is wrong with the file that this word names, at a place in it that is written after its name.
pub fn tell_at<P: Display + Drop, D: Display + Drop>(
    rt: &HostRuntime,
    number: usize,
    place: P,
    reason: D,
) -> Told {
    let mut path = [0u8; WORD];
    say(rt, b"pool: ");
    say(rt, word(rt, number, &mut path));
    say_words(rt, place);
    say(rt, b": ");
    say_words(rt, reason);
    say(rt, b"\n");
    Told
}

// What is wrong with the file that this word names.
pub fn tell<D: Display + Drop>(rt: &HostRuntime, number: usize, reason: D) -> Told {
    tell_at(rt, number, "", reason)
}

// Why the alternates of a record are refused.
fn wrong_alternates(alternates: &[u8]) -> &'static str {
    if alternates.contains(&b'<') {
        "ALT has a symbolic allele; only alleles that are spelt out can be built"
    } else if alternates.contains(&b'*') {
        "ALT has the allele *; only alleles that are spelt out can be built"
    } else if alternates.contains(&b'[') || alternates.contains(&b']') {
        "ALT has a breakend; only alleles that are spelt out can be built"
    } else {
        "ALT is neither . nor 1 to 254 alleles of the letters A, C, G, T and N, parted by commas"
    }
}

// Why a record is refused, by the refusal of it alone, and its line in short.
pub fn wrong_record(wrong: Refusal, line: &[u8]) -> &'static str {
    match wrong.number {
        refusal::WINDOW_PLACE => {
            "POS is no number from 1 to 2147483647, or REF goes beyond that"
        }
        refusal::WRONG_LETTER => "REF has a byte that is no letter: it is not A, C, G, T or N",
        refusal::STRETCH_LONG => TOO_LONG,
        refusal::REPEATED => "an allele of ALT is equal to REF or to an earlier one",
        _ if field(line, 3).is_empty() => "REF is empty",
        _ => wrong_alternates(field(line, 4)),
    }
}
