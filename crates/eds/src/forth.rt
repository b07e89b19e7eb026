// A text in braces to stretches: it is read in pieces, and a stretch is written whenever the next segment has no room in it. Once all of
// them are written, so is the manifest, which is the text.
use digest::Hashing;
use eds_notation::{Halt, Place, Stop, Tape, Wrong, cut, finish, read_on, write_closed};
use files::{Told, WORD, fail, fill, word, write_all};
use lines::{put_bytes, put_line};
use manifest::{MOST_BYTES, put_digest};
use stretch::Written;
use text::{limits, part};
use text_files::Built;

// The most variants of a stretch, each of which has a length of two bytes.
const MOST_VARIANTS: usize = limits::GREATEST_STRETCH / 2;

// How much is read at once.
const PIECE: usize = 65536;

// Room for the comment line of a manifest.
const ABOUT: usize = 8192;

// The word of the command line that names the text, as its manifest says it.
const SOURCE: usize = 2;

// How far a text has come: what is held of it, with its letters, lengths and counts, the place after what was read, the digest of what was
// read, and what is written, with the manifest's lines.
#[derive(Drop)]
struct Text<'a> {
    rt: &'a HostRuntime,
    tape: Tape,
    // Stay arrays with places in the tape: the memory is fixed.
    letters: [u8; limits::GREATEST_STRETCH],
    lengths: [u16; MOST_VARIANTS],
    counts: [u8; limits::MOST_IN_STRETCH],
    place: Place,
    hashing: Hashing,
    built: Built<'a>,
    lines: [u8; MOST_BYTES],
}

// Prints a line of a word and a number.
fn print_line(rt: &HostRuntime, word: &[u8], number: u64) {
    let mut line = [0u8; 64];
    let end = put_line(word, number, &mut line, 0);
    let _ = write_all(&mut rt.stdout(), part(&line, 0, end));
}

// Says what is wrong, and its line and column.
fn tell_wrong(rt: &HostRuntime, wrong: Wrong, place: Place) -> Told {
    print_line(rt, b"wrong ", wrong.number());
    print_line(rt, b"line ", place.line as u64);
    print_line(rt, b"column ", place.column as u64);
    Told
}

impl Text<'_> {
    // Writes the closed segments as the next stretch.
    fn write_next(&mut self) -> Result<(), Told> {
        let rt = self.rt;
        let mut out = [0u8; limits::GREATEST_STRETCH];
        match write_closed(
            self.tape,
            &self.letters,
            &self.lengths,
            &self.counts,
            &mut out,
        ) {
            Written::Bytes(n) => {
                self.built
                    .write_stretch(rt, part(&out, 0, n), &mut self.lines)
            }
            Written::Refused(wrong) => {
                print_line(rt, b"refused ", wrong.number);
                Err(Told)
            }
        }
    }

    // Reads a piece from a place on, until it ends or a stretch is full. The place where it goes on, if it does.
    fn turn(&mut self, piece: &[u8], from: usize) -> Result<Option<usize>, Told> {
        match read_on(
            self.tape,
            piece,
            from,
            &mut self.letters,
            &mut self.lengths,
            &mut self.counts,
        ) {
            Ok(tape) => {
                self.tape = tape;
                Ok(None)
            }
            Err(
                Halt {
                    at,
                    tape: _,
                    stop: Stop::Wrong(wrong),
                },
            ) => Err(tell_wrong(self.rt, wrong, self.place.behind(piece, at))),
            Err(
                Halt {
                    at,
                    tape,
                    stop: Stop::Full,
                },
            ) => {
                self.tape = tape;
                self.write_next()?;
                self.tape = cut(tape, &mut self.letters, &mut self.lengths);
                Ok(Some(at))
            }
        }
    }

    // One piece more. Nothing counts its turns, so the loop counts to a number that no run uses up.
    fn take(&mut self, piece: &[u8]) -> Result<(), Told> {
        self.hashing = self.hashing.over(piece);
        let mut from = 0;
        for _ in 0..u64::MAX {
            match self.turn(piece, from)? {
                Some(at) => from = at,
                None => break,
            }
        }
        self.place = self.place.behind(piece, piece.len());
        Ok(())
    }

    // Reads standard input to its end. Nothing counts its pieces either.
    fn take_all(&mut self) -> Result<(), Told> {
        let rt = self.rt;
        let mut buffer = [0u8; PIECE];
        for _ in 0..u64::MAX {
            match fill(&mut rt.stdin(), &mut buffer) {
                Ok(Some(piece)) => self.take(piece)?,
                Ok(None) => break,
                Err(error) => return Err(fail(rt, b"standard input", error)),
            }
        }
        Ok(())
    }

    // Writes the manifest, with a comment line on where the text comes from, and says how many stretches there are.
    fn write_manifest(&mut self) -> Result<(), Told> {
        let rt = self.rt;
        let mut path = [0u8; WORD];
        let mut about = [0u8; ABOUT];
        let digest = put_bytes(b"# braces ", &mut about, 0);
        let blanks = put_digest(self.hashing.end(), &mut about, digest);
        let source = put_bytes(b"  ", &mut about, blanks);
        let feed = put_bytes(word(rt, SOURCE, &mut path), &mut about, source);
        let end = put_bytes(b"\n", &mut about, feed);
        self.built
            .write_manifest(rt, part(&about, 0, end), &mut self.lines)?;
        print_line(rt, b"stretches ", self.built.stretches);
        Ok(())
    }

    // The end of the text: the last stretch, and the manifest. What stands open has room, since each of its letters was put only with room
    // for its end.
    fn end(&mut self) -> Result<(), Told> {
        match finish(
            self.tape,
            &mut self.letters,
            &mut self.lengths,
            &mut self.counts,
        ) {
            Ok(tape) => {
                self.tape = tape;
                self.write_next()?;
                self.write_manifest()
            }
            Err(Stop::Full) => Ok(()),
            Err(Stop::Wrong(wrong)) => Err(tell_wrong(self.rt, wrong, self.place)),
        }
    }
}

// Writes the text on standard input to files of this name.
pub fn convert(rt: &HostRuntime, name: &[u8]) -> Result<(), Told> {
    let mut text = Text {
        rt,
        tape: Tape::empty(),
        letters: [0; limits::GREATEST_STRETCH],
        lengths: [0; MOST_VARIANTS],
        counts: [0; limits::MOST_IN_STRETCH],
        place: Place::first(),
        hashing: Hashing::new(),
        built: Built::begin(rt, name)?,
        lines: manifest::room(),
    };
    text.take_all()?;
    text.end()
}
