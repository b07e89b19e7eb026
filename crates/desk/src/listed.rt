// The lines of a list, one after another.
ghost use Rattle.std.specs.Prelude.{length, ◌-◌};
ghost use Rattle.std.specs.Iterator.{at_most};

use desk_list::{Line, line_at};

// A list, and the place of the next line.
#[derive(Drop)]
pub struct Lines<'a> {
    list: &'a [u8],
    at: usize,
}

impl Lines<'_> {
    // All lines of a list.
    pub fn of(list: &[u8]) -> Lines<'_> {
        Lines { list, at: 0 }
    }
}

impl Iterator for Lines<'_> {
    type Item = Line;

    ghost remaining = { λ s. at_most (length s.list.now - s.at) };

    // The test shows that the lines end: each of them lies within the list, and the next one after it.
    fn next(&mut self) -> Option<Line> {
        let line = line_at(self.list, self.at)?;
        if self.list.len() <= self.at || line.next <= self.at {
            return None;
        }
        self.at = line.next;
        Some(line)
    }
}
