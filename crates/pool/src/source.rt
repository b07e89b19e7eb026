// A file that is read in pieces, from front to end, with the digest of all that was read.
use digest::Hashing;
use files::{Told, WORD, fail, fill, opened, word};
use std::fs::File;
use text::part;

// How much is read at once.
pub const PIECE: usize = 65536;

// The word of the command line that names a file, the file, the buffer of the piece that is held, with how far it is read and where it
// ends, whether the file so far ends with a line feed, and its digest.
#[derive(Drop)]
pub struct Source<'a> {
    number: usize,
    file: File,
    // Stays a buffer with two places: the memory is fixed, and a piece is read in turns.
    piece: &'a mut [u8],
    pub at: usize,
    pub end: usize,
    pub feed: bool,
    // A file that has ended is not read again.
    ended: bool,
    pub hashing: Hashing,
}

// Opens the file that this word names, or says why not.
pub fn open(rt: &HostRuntime, number: usize) -> Result<File, Told> {
    let mut path = [0u8; WORD];
    let path = word(rt, number, &mut path);
    opened(rt, path).map_err(|error| fail(rt, path, error))
}

impl Source<'_> {
    // The file that this word names, of which nothing is read yet, with room for its pieces.
    pub fn of<'a>(number: usize, file: File, piece: &'a mut [u8]) -> Source<'a> {
        Source {
            number,
            file,
            piece,
            at: 0,
            end: 0,
            feed: true,
            ended: false,
            hashing: Hashing::new(),
        }
    }

    // The piece that is held.
    pub fn piece(&self) -> &[u8] {
        part(self.piece, 0, self.end)
    }

    // Reads the next piece. Whether there was one.
    pub fn next_piece(&mut self, rt: &HostRuntime) -> Result<bool, Told> {
        self.at = 0;
        self.end = 0;
        if self.ended {
            return Ok(false);
        }
        match fill(&mut self.file, &mut *self.piece) {
            Ok(None) => {
                self.ended = true;
                Ok(false)
            }
            Ok(Some(piece)) => {
                self.end = piece.len();
                self.feed = piece.ends_with(b"\n");
                self.hashing = self.hashing.over(piece);
                Ok(true)
            }
            Err(error) => {
                let mut path = [0u8; WORD];
                Err(fail(rt, word(rt, self.number, &mut path), error))
            }
        }
    }

    // Reads a file to its end, for its digest. Nothing counts the pieces, so the loop counts to a number that no run uses up.
    pub fn read_to_end(&mut self, rt: &HostRuntime) -> Result<(), Told> {
        for _ in 0..u64::MAX {
            if !self.next_piece(rt)? {
                break;
            }
        }
        Ok(())
    }
}
