// A list by value, which is made record by record.
ghost use Rattle.std.specs.Prelude.{◌≡◌, ◌+◌, ◌<◌, ◌≤◌, length, take};
ghost use Rattle.layout.specs.Bytes.{left_by};
ghost use Rattle.watch.specs.Watching.{watching, told_found, marking, told_listed, accepted, marks_of};

use test_reference::places::put_part;
use watch::{Found, Listed, Watched};

// The most records: one more than a list may have.
pub const MOST: usize = 33;

// Of the records the first n. No Vec: the memory of the tests is fixed.
#[derive(Clone, Copy)]
pub struct List {
    pub records: [Watched; MOST],
    pub n: usize,
}

impl List {
    // No record.
    pub fn empty() -> List {
        let none = Watched {
            pattern: [0; 64],
            m: 0,
            label: 0,
        };
        List {
            records: [none; MOST],
            n: 0,
        }
    }

    // One record more, of these bases, as far as there is room. What stands after them is no base.
    pub fn push(&mut self, bases: &[u8], label: u64)
        ensures room { self.old.n < 33 → self.new.n ≡ self.old.n + 1 }
    {
        if MOST <= self.n {
            return;
        }
        let mut pattern = [b'z'; 64];
        put_part(&mut pattern, 0, bases);
        let m = (bases.len() % 256) as u8;
        self.records[self.n] = Watched { pattern, m, label };
        self.n += 1;
    }

    // The first record that ends in a stretch.
    pub fn first(&self, stretch: &[u8]) -> Found
        ensures { self.now.n ≤ 33 → told_found result ≡ watching (take self.now.n self.now.records) stretch.now }
    {
        if MOST < self.n {
            return Found::None;
        }
        watch::first(&self.records[..self.n], stretch)
    }

    // A mark for each record.
    pub fn mark(&self, stretch: &[u8], marks: &mut [u8]) -> Listed
        ensures { self.now.n ≤ 33 → let list = take self.now.n self.now.records in
            (told_listed result ≡ accepted (marking list stretch.now (length marks.old)))
            × (marks.new ≡ left_by (marks_of list) (marking list stretch.now (length marks.old)) marks.old) }
    {
        if MOST < self.n {
            return Listed::Marked;
        }
        watch::mark(&self.records[..self.n], stretch, marks)
    }
}
