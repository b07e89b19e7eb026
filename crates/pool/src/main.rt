// The text of a chromosome, made from a reference and a variant file as clinics have them. The words after the program's name are the
// reference's file (FASTA), the chromosome, the variant file (VCF) and a name, and perhaps `--unended`, by which a last line without a line
// feed is taken. The stretches go to files of that name and a number, in order, and once all of them are written the manifest, which is
// the text, to a file of that name. What cannot be built is said on standard error, with file, line and reason; then there is no file of
// that name. Else four lines are printed.
#![tactic(auto)]

mod about;
mod contig;
mod records;
mod reference;
mod source;
mod walk;
mod window;
mod words;

use files::{Told, WORD, count_words, say_line, word};
use records::{Records, read_first};
use reference::Reference;
use source::{PIECE, Source, open};
use std::fs::File;
use text_files::Built;
use walk::Walk;
use window::{ROOM, Window};
use words::{CHROMOSOME, REFERENCE, TEXT, UNENDED, VARIANTS};

// Whether a last line without a line feed is taken as it is.
fn is_unended(rt: &HostRuntime) -> bool {
    let mut option = [0u8; WORD];
    word(rt, UNENDED, &mut option) == b"--unended".as_slice()
}

// Whether the command line has the words that it needs.
fn is_asked(rt: &HostRuntime) -> bool {
    let words = count_words(rt);
    words == 5 || words == 6 && is_unended(rt)
}

// Walks along the chromosome, with the first piece of the variant file at hand. Each large buffer lies here, once; it is a call of its own,
// so that what is refused before needs little memory.
#[inline(never)]
fn walk_from(
    rt: &HostRuntime,
    name: &[u8],
    built: Built<'_>,
    reference: File,
    variants: Source<'_>,
) -> Result<(), Told> {
    let mut piece = [0u8; PIECE];
    let mut short = [0u8; PIECE];
    let mut bytes = [0u8; ROOM];
    let mut lines = manifest::room();
    let mut walk = Walk {
        rt,
        window: Window::begin(1, &mut bytes),
        reference: Reference::begin(rt, name, Source::of(REFERENCE, reference, &mut piece)),
        records: Records::begin(rt, name, variants, is_unended(rt), &mut short),
        built,
        lines: &mut lines,
    };
    walk.run()
}

// Reads the first piece of the variant file, and goes on if it is one.
#[inline(never)]
fn read_files(
    rt: &HostRuntime,
    name: &[u8],
    built: Built<'_>,
    reference: File,
    variants: File,
) -> Result<(), Told> {
    let mut piece = [0u8; PIECE];
    let mut variants = Source::of(VARIANTS, variants, &mut piece);
    read_first(rt, &mut variants)?;
    walk_from(rt, name, built, reference, variants)
}

// Writes the text of the chromosome, from the files that the command line names.
fn pool(rt: &HostRuntime) -> Result<(), Told> {
    let mut out = [0u8; WORD];
    let mut name = [0u8; WORD];
    let built = Built::begin(rt, word(rt, TEXT, &mut out))?;
    let name = word(rt, CHROMOSOME, &mut name);
    let reference = open(rt, REFERENCE);
    let variants = open(rt, VARIANTS);
    read_files(rt, name, built, reference?, variants?)
}

fn main(rt: HostRuntime) {
    if is_asked(&rt) {
        // What failed has been said, and the script reads the rest off what is printed.
        let _ = pool(&rt);
    } else {
        say_line(
            &rt,
            "usage: pool REFERENCE.fa CHROMOSOME FILE.vcf OUT [--unended]",
        );
    }
}
