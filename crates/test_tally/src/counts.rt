// How many answers were compared, in all and group by group, and how many of them differ.
ghost use Rattle.std.specs.Prelude.{◌≡◌, ◌%◌, slice_index};
ghost use Rattle.test_tally.specs.Counts.{more_in, compared_in, next_at};

use crate::answers::Answer;
use std::fmt;

// How many groups there are.
pub const GROUPS: usize = 64;

// An answer that differs from the wanted one, with its group and the number that tells where.
#[derive(Clone, Copy)]
pub struct Difference {
    pub group: usize,
    pub at: u64,
    pub got: Answer,
    pub wanted: Answer,
}

impl fmt::Display for Difference {
    fn fmt<W: fmt::Write>(&self, f: &mut fmt::Formatter<W>) -> fmt::Result {
        write!(
            f,
            "differs: group {} number {}: got {}, wanted {}",
            self.group, self.at, self.got, self.wanted
        )
    }
}

#[derive(Clone, Copy)]
pub struct Tally {
    // What is compared now, a number that tells where an answer differs.
    pub at: u64,
    pub ran: u64,
    pub differ: u64,
    // Stays an array: the memory of the tests is fixed.
    pub groups: [u64; GROUPS],
    // The first answer that differs.
    pub first: Option<Difference>,
}

impl Tally {
    // Nothing yet.
    pub const NONE: Tally = Tally {
        at: 0,
        ran: 0,
        differ: 0,
        groups: [0; GROUPS],
        first: None,
    };

    // That many more in a group, modulo their number.
    pub fn more(&mut self, group: usize, n: usize)
        ensures { self.new ≡ more_in self.old group n }
    {
        let i = group % GROUPS;
        self.groups[i] = self.groups[i].wrapping_add(n as u64);
    }

    // One answer more in a group, which is to be the wanted one.
    pub fn compare(&mut self, group: usize, got: Answer, wanted: Answer)
        ensures { self.new ≡ compared_in self.old group got wanted }
    {
        self.more(group, 1);
        self.ran = self.ran.wrapping_add(1);
        if got != wanted {
            self.differ = self.differ.wrapping_add(1);
            let at = self.at;
            self.first = self.first.or(Some(Difference {
                group,
                at,
                got,
                wanted,
            }));
        }
    }

    // The same counts, for what is compared next.
    pub fn next(&mut self, at: u64)
        ensures { self.new ≡ next_at self.old at }
    {
        self.at = at;
    }

    // A group's count.
    pub fn of(&self, group: usize) -> u64
        ensures { result ≡ slice_index self.now.groups (group % 64) }
    {
        self.groups[group % GROUPS]
    }
}
