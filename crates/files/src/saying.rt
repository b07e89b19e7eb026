// What is said on standard error. It goes by the crate's own writing, which a signal never ends: std's print gives up after some
// interruptions.
ghost use Rattle.std.specs.Prelude.{◌<◌, ◌≡◌};

use crate::putting::written;
use crate::writing::write_all;
use std::fmt::Display;
use std::io;
use std::io::{Cursor, Error, ErrorKind, Write};

// Room for a reason: the system's words for it have fewer than 64 bytes.
const REASON: usize = 128;

// Room for a line of words and numbers: what the programs say has fewer bytes, and is one write. What has more is several.
const LINE: usize = 512;

// That something failed, and that it was said why.
#[derive(Clone, Copy, Debug)]
pub struct Told;

// Bytes on standard error: whether all of them were written. Why not can be said nowhere.
fn is_said(rt: &HostRuntime, words: &[u8]) -> bool {
    write_all(&mut rt.stderr(), words).is_ok()
}

// Bytes on standard error, as a file's name is, which need not be text.
pub fn say(rt: &HostRuntime, words: &[u8]) {
    is_said(rt, words);
}

// The bytes put so far of what is said, and how many.
#[derive(Drop)]
struct Line<'a> {
    rt: &'a HostRuntime,
    bytes: [u8; LINE],
    n: usize,
}

impl Line<'_> {
    // Says what is put, after which nothing is.
    fn say(&mut self) -> io::Result<()>
        ensures { self.new.n ≡ 0 }
    {
        let n = self.n.min(LINE);
        self.n = 0;
        if is_said(self.rt, &self.bytes[..n]) {
            return Ok(());
        }
        Err(Error::from(ErrorKind::WriteZero))
    }

    // Says a full line, so that there is room.
    fn make_room(&mut self) -> io::Result<()>
        ensures { self.new.n < LINE }
    {
        if LINE <= self.n {
            return self.say();
        }
        Ok(())
    }
}

impl Write for Line<'_> {
    // Puts the words that there is room for, a byte at least where there is one.
    fn write(&mut self, words: &[u8]) -> io::Result<usize> {
        self.make_room()?;
        let room = &mut self.bytes[self.n..];
        let n = room.len().min(words.len());
        room[..n].copy_from_slice(&words[..n]);
        self.n += n;
        Ok(n)
    }

    fn flush(&mut self) -> io::Result<()> {
        self.say()
    }
}

// Words and numbers on standard error.
pub fn say_words<D: Display + Drop>(rt: &HostRuntime, words: D) {
    let mut line = Line {
        rt,
        bytes: [0; LINE],
        n: 0,
    };
    let _ = write!(line, "{words}");
    let _ = line.say();
}

// The same, and the line's end.
pub fn say_line<D: Display + Drop>(rt: &HostRuntime, words: D) {
    say_words(rt, format_args!("{words}\n"));
}

// Says what is wrong, as the caller names it, a colon, and the reason.
pub fn tell<D: Display + Drop>(rt: &HostRuntime, what: &[u8], reason: D) -> Told {
    say(rt, what);
    say_line(rt, format_args!(": {reason}"));
    Told
}

// Says what failed, as the caller names it, a colon, and the reason in the system's words, without the number that std puts after them, as
// in ` (os error 2)`.
pub fn fail(rt: &HostRuntime, what: &[u8], error: Error) -> Told {
    let mut out = Cursor::new([0u8; REASON]);
    let _ = write!(out, "{error}");
    let reason = std::str::from_utf8(written(&out)).unwrap_or("");
    let words = reason
        .split_once(" (os error ")
        .map_or(reason, |(words, _)| words);
    // Four writes: where one of them fails, the others may not.
    say(rt, what);
    say(rt, b": ");
    say(rt, words.as_bytes());
    say(rt, b"\n");
    Told
}
