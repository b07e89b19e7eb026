// The bases of the chromosome, taken from the reference as they are wanted.
use crate::source::Source;
use crate::window::Window;
use crate::words::{REFERENCE, tell, tell_at};
use eds_notation::Place;
use files::Told;
use pool_files::{Reading, Taken, take};

// The reference, the name of the chromosome, where the reading stands, and line and column where the piece that is held begins.
#[derive(Drop)]
pub struct Reference<'a, 's> {
    rt: &'a HostRuntime,
    name: &'a [u8],
    pub source: Source<'s>,
    reading: Reading,
    place: Place,
}

// What is wrong with a file that does not begin as a reference does.
fn wrong_first(piece: &[u8]) -> &'static str {
    if piece.starts_with(&[0x1F]) {
        "it is compressed; unpack it into a file first, by gunzip"
    } else {
        "this is no reference in FASTA format: it does not begin with >"
    }
}

impl Reference<'_, '_> {
    // A reference of which nothing is read yet.
    pub fn begin<'a, 's>(
        rt: &'a HostRuntime,
        name: &'a [u8],
        source: Source<'s>,
    ) -> Reference<'a, 's> {
        Reference {
            rt,
            name,
            source,
            reading: Reading::Start,
            place: Place::first(),
        }
    }

    // Whether the file may end here: with the sequence, if it was found. One that does not end with a line feed may have been cut.
    fn ended(&self, is_unended: bool) -> Result<(), Told> {
        let reason = match self.reading {
            Reading::Start => wrong_first(b""),
            Reading::Before | Reading::Passing | Reading::Word(_) => {
                "no sequence in it has that name"
            }
            _ if self.source.feed || is_unended => return Ok(()),
            _ => {
                "its last line does not end with a line feed: the file may have been cut (--unended takes it as it is)"
            }
        };
        Err(tell(self.rt, REFERENCE, reason))
    }

    // The next piece, after one that is used up. Whether there was one.
    pub fn turn_page(&mut self, is_unended: bool) -> Result<bool, Told> {
        let piece = self.source.piece();
        let there = self.place.behind(piece, piece.len());
        if self.source.next_piece(self.rt)? {
            self.place = there;
            return Ok(true);
        }
        self.ended(is_unended)?;
        Ok(false)
    }

    // What is wrong with the byte at a place of the piece, which the reading came to: the first of the file, or one of the sequence.
    fn wrong_byte(&self, before: Reading, at: usize) -> Told {
        let piece = self.source.piece();
        if matches!(before, Reading::Start) && at == 0 {
            return tell(self.rt, REFERENCE, wrong_first(piece));
        }
        let there = self.place.behind(piece, at);
        tell_at(
            self.rt,
            REFERENCE,
            format_args!(", line {}, column {}", there.line, there.column),
            "this byte is no letter: it is not A, C, G, T or N",
        )
    }

    // Takes n bases of the sequence into the window, for which there is room, or as many of them as the piece has. Whether the sequence
    // goes on.
    pub fn take(&mut self, window: &mut Window<'_>, n: usize) -> Result<bool, Told> {
        let before = self.reading;
        let from = Taken {
            reading: before,
            at: self.source.at,
            count: window.count,
        };
        let most = window.count.wrapping_add(n);
        let got = take(
            self.name,
            from,
            self.source.piece(),
            &mut *window.bytes,
            most,
        );
        window.hold(got.count);
        self.source.at = got.at;
        self.reading = got.reading;
        match got.reading {
            Reading::Over => Ok(false),
            Reading::Wrong => Err(self.wrong_byte(before, got.at)),
            _ => Ok(true),
        }
    }
}
