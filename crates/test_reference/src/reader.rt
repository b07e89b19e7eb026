// A reader of a stretch, which says what is to be refused, and where: document 01's numbers 1 to 3 and 5 to 9.
use crate::places::{behind, byte_at, letters_at, meant, repeats, word_at};

// Why a pattern or a stretch is refused, by document 01's numbers.
#[derive(Clone, Copy)]
pub enum Refusal {
    NoBases = 1,
    ManyBases = 2,
    NoBase = 3,
    CutOff = 5,
    NoVariants = 6,
    NoLetter = 7,
    Repeated = 8,
    Left = 9,
}

// A refusal and its place; of a stretch also the number of the variants before it.
#[derive(Clone, Copy)]
pub struct Wrong {
    pub refusal: Refusal,
    pub place: usize,
    pub before: usize,
}

// What a stretch has: its segments, their letters and their variants. In the size the empty variant counts as one letter.
#[derive(Clone, Copy)]
pub struct Sound {
    pub segments: usize,
    pub size: usize,
    pub variants: usize,
}

// How far the bytes are read: the place after what was read, and the letters and the variants that were read.
#[derive(Clone, Copy)]
struct Reader<'a> {
    bytes: &'a [u8],
    place: usize,
    size: usize,
    variants: usize,
}

impl<'a> Reader<'a> {
    // A refusal after the variants that were read.
    fn wrong(&self, refusal: Refusal, place: usize) -> Wrong {
        Wrong {
            refusal,
            place,
            before: self.variants,
        }
    }

    // Reads one variant more, after the k of its segment, which stand from `first` on.
    fn variant(&mut self, first: usize, k: usize) -> Result<(), Wrong> {
        let at = self.place;
        let end = behind(self.bytes, at);
        if self.bytes.len() < end {
            return Err(self.wrong(Refusal::CutOff, at));
        }
        let letters = letters_at(self.bytes, at);
        if let Some(i) = letters.iter().position(|letter| meant(*letter).is_none()) {
            let place = at.wrapping_add(2).wrapping_add(i);
            return Err(self.wrong(Refusal::NoLetter, place));
        }
        if repeats(self.bytes, first, k, at) {
            return Err(self.wrong(Refusal::Repeated, at));
        }
        self.place = end;
        self.size = self.size.wrapping_add(letters.len().max(1));
        self.variants = self.variants.wrapping_add(1);
        Ok(())
    }

    // Reads one segment more.
    fn segment(&mut self) -> Result<(), Wrong> {
        let at = self.place;
        if self.bytes.len() <= at {
            return Err(self.wrong(Refusal::CutOff, at));
        }
        let count = byte_at(self.bytes, at) as usize;
        if count == 0 {
            return Err(self.wrong(Refusal::NoVariants, at));
        }
        let first = at.wrapping_add(1);
        self.place = first;
        for k in 0..count {
            self.variant(first, k)?;
        }
        Ok(())
    }
}

// A stretch.
pub fn stretch(bytes: &[u8]) -> Result<Sound, Wrong> {
    let mut reader = Reader {
        bytes,
        place: 2,
        size: 0,
        variants: 0,
    };
    if bytes.len() < 2 {
        return Err(reader.wrong(Refusal::CutOff, 0));
    }
    let segments = word_at(bytes, 0) as usize;
    for _ in 0..segments {
        reader.segment()?;
    }
    if reader.place != bytes.len() {
        return Err(reader.wrong(Refusal::Left, reader.place));
    }
    Ok(Sound {
        segments,
        size: reader.size,
        variants: reader.variants,
    })
}

// A refusal of a pattern.
fn no_pattern(refusal: Refusal, place: usize) -> Wrong {
    Wrong {
        refusal,
        place,
        before: 0,
    }
}

// A pattern: one to 64 bases.
pub fn pattern(p: &[u8]) -> Result<(), Wrong> {
    if p.is_empty() {
        return Err(no_pattern(Refusal::NoBases, 0));
    }
    if 64 < p.len() {
        return Err(no_pattern(Refusal::ManyBases, 0));
    }
    match p.iter().position(|base| !b"ACGT".contains(base)) {
        Some(place) => Err(no_pattern(Refusal::NoBase, place)),
        None => Ok(()),
    }
}
