// The release desk's night: screens a text for a list of withheld sequences, on both strands, and prints what crate desk_night decides. The
// words after the program's name are `--first`, if each sequence is to be searched to its first end alone, the list's file, then the file
// of the text's manifest, or `--files` and the files of stretches in order, for which nobody vouches. Each file is read once. The lines that
// decide go to descriptor 3 as well, once all that stands before them is written: the status is read off them, and who reads there need
// not read what may be long.
#![tactic(auto)]

mod about;
mod faults;
mod listed;
mod screening;
mod tell;

use desk_night::{Night, Trouble};
use files::{Told, WORD, count_words, read_file, say_line, word};
use screening::{Named, Screening};
use tell::{tell_named, tell_verdict};

// The most bytes of a list.
const MOST_BYTES: usize = 65536;

// Whether a word of the command line is this one.
fn is_word(rt: &HostRuntime, number: usize, wanted: &[u8]) -> bool {
    let mut path = [0u8; WORD];
    word(rt, number, &mut path) == wanted
}

// Screens the text whose manifest this word of the command line names. One that cannot be read is held.
fn screen_text<'a>(
    rt: &'a HostRuntime,
    list: &'a [u8],
    first: bool,
    number: usize,
) -> Result<(), Told> {
    let mut path = [0u8; WORD];
    let path = word(rt, number, &mut path);
    let mut text = manifest::room();
    let read = read_file(rt, path, &mut text).and_then(|text| {
        text.ok_or_else(|| {
            files::tell(
                rt,
                path,
                "it has more than 524,288 bytes, and no manifest has",
            )
        })
    });
    let Ok(text) = read else {
        tell_named(rt, b"unread ", path);
        tell_verdict(rt, Err(Trouble::Unread));
        return Err(Told);
    };
    let night = Night::begin(list, text, first);
    let mut screening = Screening {
        rt,
        list,
        text,
        named: Named::Listed(path),
        night,
    };
    screening.run(manifest::check(text).unwrap_or(0))
}

// Screens the files that the command line names from this word on.
fn screen_files<'a>(
    rt: &'a HostRuntime,
    list: &'a [u8],
    first: bool,
    number: usize,
) -> Result<(), Told> {
    let mut screening = Screening {
        rt,
        list,
        text: b"",
        named: Named::Words(number),
        night: Night::begin_files(list, first),
    };
    screening.run(count_words(rt).saturating_sub(number))
}

// Reads the list that this word names, and screens what the command line names after it.
fn screen(rt: &HostRuntime, first: bool, number: usize) -> Result<(), Told> {
    let mut path = [0u8; WORD];
    let mut bytes = [0u8; MOST_BYTES];
    let Some(list) = read_file(rt, word(rt, number, &mut path), &mut bytes)? else {
        say_line(rt, "the list has more than 65536 bytes");
        return Err(Told);
    };
    let next = number.saturating_add(1);
    if is_word(rt, next, b"--files") {
        screen_files(rt, list, first, next.saturating_add(1))
    } else {
        screen_text(rt, list, first, next)
    }
}

// Whether the words after the list's are the manifest alone, or `--files` and one file at least.
fn is_asked(rt: &HostRuntime, next: usize) -> bool {
    let more = count_words(rt).saturating_sub(next);
    more == 1 && !is_word(rt, next, b"--files") || 1 < more && is_word(rt, next, b"--files")
}

fn main(rt: HostRuntime) {
    let first = is_word(&rt, 1, b"--first");
    let number = if first { 2 } else { 1 };
    if is_asked(&rt, number + 1) {
        // What failed has been said, and the script reads the verdict off the last line.
        let _ = screen(&rt, first, number);
    } else {
        say_line(
            &rt,
            "usage: desk [--first] LIST TEXT or desk [--first] LIST --files FILE...",
        );
    }
}
