// What a verdict is about: the standing of each sequence, the digests of text and list, how much was read, and by which program.
use crate::listed::Lines;
use crate::tell::{print, tell_standing};
use desk_night::Night;
use files::Told;
use lines::{put_bytes, put_number, put_version};
use manifest::put_digest;
use text::part;

// Prints where each sequence stands.
fn tell_standings(rt: &HostRuntime, night: Night, list: &[u8]) -> Result<(), Told> {
    let sequences = Lines::of(list).filter_map(|line| line.said.unwrap_or(None));
    for (withheld, standing) in sequences.zip(night.standings) {
        tell_standing(rt, withheld.label, standing)?;
    }
    Ok(())
}

// Puts a word, a digest, and the line's end.
fn put_digested(word: &[u8], digest: [u8; 32], out: &mut [u8], at: usize) -> usize {
    let from = put_bytes(word, &mut *out, at);
    let feed = put_digest(digest, &mut *out, from);
    put_bytes(b"\n", &mut *out, feed)
}

// Puts a number and the word after it.
fn put_counted(number: u64, word: &[u8], out: &mut [u8], at: usize) -> usize {
    let end = put_number(number, &mut *out, at);
    put_bytes(word, &mut *out, end)
}

// Puts the lines of the text, of the list, and of what was read.
fn put_about(night: Night, out: &mut [u8]) -> usize {
    let text = match night.text {
        Some(digest) => put_digested(b"text ", digest, &mut *out, 0),
        None => put_bytes(
            b"files: nobody vouches for their order and completeness\n",
            &mut *out,
            0,
        ),
    };
    let list = put_digested(b"list ", night.list, &mut *out, text);
    let sequences = put_counted(night.count as u64, b" sequences, ", &mut *out, list);
    let stretches = put_counted(night.stretches, b" stretches, ", &mut *out, sequences);
    let segments = put_counted(night.segments, b" segments, ", &mut *out, stretches);
    let bytes = put_counted(night.bytes, b" bytes, ", &mut *out, segments);
    let version = put_version(&mut *out, bytes);
    put_bytes(b"\n", &mut *out, version)
}

// Prints the standings, and what the verdict is about.
pub fn tell_about(rt: &HostRuntime, night: Night, list: &[u8]) -> Result<(), Told> {
    tell_standings(rt, night, list)?;
    let mut out = [0u8; 512];
    let end = put_about(night, &mut out);
    print(rt, part(&out, 0, end))
}
