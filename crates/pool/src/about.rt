// Where a text comes from: the comment lines at the head of its manifest.
use crate::source::Source;
use crate::walk::Walk;
use crate::words::{CHROMOSOME, REFERENCE, VARIANTS};
use files::{WORD, folder, word};
use lines::{put_bytes, put_line, put_number};
use manifest::{is_name, put_digest};

// Room for the lines: two names of files, and a chromosome's.
pub const ABOUT: usize = 16384;

// Puts the name that a word of the command line ends with, and the line's end; a name that no line may have is put as a question mark.
fn put_name(rt: &HostRuntime, number: usize, out: &mut [u8], at: usize) -> usize {
    let mut path = [0u8; WORD];
    let path = word(rt, number, &mut path);
    let name = &path[folder(path)..];
    let feed = if is_name(name) {
        put_bytes(name, &mut *out, at)
    } else {
        put_bytes(b"?", &mut *out, at)
    };
    put_bytes(b"\n", &mut *out, feed)
}

// Puts a file by its digest and its name.
fn put_source(
    rt: &HostRuntime,
    number: usize,
    source: &Source<'_>,
    out: &mut [u8],
    at: usize,
) -> usize {
    let blanks = put_digest(source.hashing.end(), &mut *out, at);
    let name = put_bytes(b"  ", &mut *out, blanks);
    put_name(rt, number, &mut *out, name)
}

// Puts how much of both files the text has.
fn put_counts(walk: &Walk<'_, '_, '_>, out: &mut [u8], at: usize) -> usize {
    let own = put_bytes(b"# records ", &mut *out, at);
    let word = put_number(walk.records.own, &mut *out, own);
    let others = put_bytes(b", others ", &mut *out, word);
    let last = put_number(walk.records.others, &mut *out, others);
    put_line(b", bases ", walk.bases() as u64, &mut *out, last)
}

// Puts the chromosome, both files by their digests and names, and how much of them the text has. The place after the lines.
pub fn put_about(walk: &Walk<'_, '_, '_>, out: &mut [u8]) -> usize {
    let rt = walk.rt;
    let name = put_bytes(b"# chromosome ", &mut *out, 0);
    let first = put_name(rt, CHROMOSOME, &mut *out, name);
    let reference = put_bytes(b"# reference ", &mut *out, first);
    let second = put_source(rt, REFERENCE, &walk.reference.source, &mut *out, reference);
    let variants = put_bytes(b"# variants ", &mut *out, second);
    let third = put_source(rt, VARIANTS, &walk.records.source, &mut *out, variants);
    put_counts(walk, &mut *out, third)
}
