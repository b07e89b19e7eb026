// A reader that keeps the stretch beside its place: thin functions over the calls of reading.rt, which do the work.
ghost use Rattle.std.specs.Prelude.{◌≡◌};
ghost use Rattle.stretch.specs.Places.{reading, part_of};
ghost use Rattle.stretch.specs.Answers.{told_got};

use crate::reading::{Got, letters, read};

// A stretch and a place in it. Any bytes and any two numbers are fine, as for `read`.
#[derive(Clone, Copy)]
pub struct Reader<'a> {
    pub stretch: &'a [u8],
    pub segment: usize,
    pub variant: usize,
}

impl<'a> Reader<'a> {
    // At the start of the text.
    pub fn new(stretch: &'a [u8]) -> Reader<'a>
        ensures { (result.stretch ≡ stretch.entry) × (result.segment ≡ 0) × (result.variant ≡ 0) }
    {
        Reader {
            stretch,
            segment: 0,
            variant: 0,
        }
    }

    // The first variant at or after its place.
    pub fn read(self) -> Got
        ensures { told_got result ≡ reading self.entry.stretch.now self.entry.segment self.entry.variant }
    {
        read(self.stretch, self.segment, self.variant)
    }

    // The letters that go with that answer, for as long as the stretch is lent.
    pub fn letters(self) -> &'a [u8]
        ensures { result.now ≡ part_of self.entry.stretch.now
            (reading self.entry.stretch.now self.entry.segment self.entry.variant).answer }
    {
        letters(self.stretch, self.segment, self.variant)
    }

    // The same stretch at another place, as at the one that an answer names.
    pub fn moved(self, segment: usize, variant: usize) -> Reader<'a>
        ensures { (result.stretch ≡ self.entry.stretch) × (result.segment ≡ segment) × (result.variant ≡ variant) }
    {
        Reader {
            stretch: self.stretch,
            segment,
            variant,
        }
    }
}

// What a reader answers at a place, said of the plain stretch: whoever calls this needs to know nothing of readers.
pub fn read_from(stretch: &[u8], segment: usize, variant: usize) -> Got
    ensures { told_got result ≡ reading stretch.now segment variant }
{
    Reader::new(stretch).moved(segment, variant).read()
}
