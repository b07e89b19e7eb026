// States: which lengths of a pattern end exactly at the end of the last segment. A search goes from segment to segment, and from
// stretch to stretch, as a state handed in and handed back.
ghost use Rattle.std.specs.Prelude.{◌≡◌, length};
ghost use Rattle.text.specs.Refusal.{ok, after};
ghost use Rattle.text.specs.State.{marks_from};
ghost use Rattle.text.specs.Strand.{on_strand};
ghost use Rattle.layout.specs.Bytes.{left_by};
ghost use Rattle.search.specs.Answers.{feeding, next_of, told_fed};
ghost use Rattle.search.specs.Answers.{seeking, seen_from, told_marked, told_sought};
ghost use Rattle.search.specs.Carried.{carried_by};

use crate::entry::enter;
use crate::marking::{Marked, mark};
use crate::method::ByBits;
use crate::run::run;
use crate::vectors::complements;
use layout::walk::Walk;
use text::Refusal;
use text::spelling::classes;
use text::strand::{Strand, read_on};

// Bit r is set when length r is carried, 1 to 63. Bit 0 is no length: an occurrence may start afresh.
#[derive(Clone, Copy)]
pub struct State {
    pub bits: u64,
}

// The state after one segment, and whether an occurrence ends in it.
// Stays an enum of its own: its name and shape are fixed.
#[derive(Clone, Copy)]
pub enum Fed {
    Next { state: State, ends: bool },
    Refused(Refusal),
}

// What a search from a state answers: the segment count, the size, the number of ones among the marks, and the state after the
// stretch.
// Stays an enum of its own: its name and shape are fixed.
#[derive(Clone, Copy)]
pub enum Sought {
    Marked {
        segments: usize,
        size: usize,
        ends: usize,
        state: State,
    },
    Refused(Refusal),
}

impl From<Result<Marked<State>, Refusal>> for Sought {
    fn from(marked: Result<Marked<State>, Refusal>) -> Sought
        ensures { told_sought result ≡ told_marked marked }
    {
        match marked {
            Ok(
                Marked {
                    segments,
                    size,
                    ends,
                    state,
                },
            ) => Sought::Marked {
                segments,
                size,
                ends,
                state,
            },
            Err(refused) => Sought::Refused(refused),
        }
    }
}

// How many lengths a state carries, and the shortest of them, 0 if there is none.
#[derive(Clone, Copy)]
pub struct Carried {
    pub count: u32,
    pub shortest: u32,
}

impl State {
    // Nothing is carried.
    pub const FRESH: State = State { bits: 1 };

    // The state after a lone segment, of the pattern as the strand reads it: refusals 1, 2, 3, 4, 17, then 5 to 9.
    pub fn feed(self, pattern: &[u8], strand: Strand, segment: &[u8]) -> Fed
        ensures { told_fed result ≡ feeding pattern.now strand self.bits segment.now }
    {
        match self.fed(pattern, strand, segment) {
            Err(refused) => Fed::Refused(refused),
            Ok(marked) => Fed::Next {
                state: marked.state,
                ends: marked.ends != 0,
            },
        }
    }

    // What the run over a lone segment tells of it.
    fn fed(self, pattern: &[u8], strand: Strand, segment: &[u8]) -> Result<Marked<State>, Refusal>
        ensures { after (told_marked result) (λ x. ok (next_of x)) ≡ feeding pattern.now strand self.bits segment.now }
    {
        enter(pattern, self, segment)?;
        let m = pattern.len();
        let bytes = read_on(strand, pattern);
        let read = &bytes[..m];
        let table = complements(read);
        let letters = classes();
        let by = ByBits {
            pattern: read,
            vectors: &table,
            classes: &letters,
        };
        let walk = Walk::lone();
        let mut mark = [0u8; 1];
        run(false, by, self, segment, walk, &mut mark)
    }

    // The search of a whole stretch from this state, by bit-vectors, of the pattern as the strand reads it: refusals 1, 2, 3, 4, 17,
    // those of the stretch, then 10. It writes 1 or 0 for each segment; further bytes stay, and a refusal changes nothing. The state
    // after the stretch is where the search of the next one begins, so that nothing is lost at a cut.
    pub fn through(self, pattern: &[u8], strand: Strand, stretch: &[u8], marks: &mut [u8]) -> Sought
        ensures result_value { told_sought result
            ≡ after (seeking pattern.now self.bits stretch.now (length marks.old))
            (λ t. ok (seen_from (on_strand strand pattern.now) self.bits t)) }
        ensures marks_after { marks.new ≡ left_by (marks_from (on_strand strand pattern.now) self.bits)
            (seeking pattern.now self.bits stretch.now (length marks.old)) marks.old }
    {
        Sought::from(self.marked(pattern, strand, stretch, &mut *marks))
    }

    // The same as a result.
    pub(crate) fn marked(
        self,
        pattern: &[u8],
        strand: Strand,
        stretch: &[u8],
        marks: &mut [u8],
    ) -> Result<Marked<State>, Refusal>
        ensures result_value { told_marked result
            ≡ after (seeking pattern.now self.bits stretch.now (length marks.old))
            (λ t. ok (seen_from (on_strand strand pattern.now) self.bits t)) }
        ensures marks_after { marks.new ≡ left_by (marks_from (on_strand strand pattern.now) self.bits)
            (seeking pattern.now self.bits stretch.now (length marks.old)) marks.old }
    {
        enter(pattern, self, stretch)?;
        let m = pattern.len();
        let bytes = read_on(strand, pattern);
        let read = &bytes[..m];
        let table = complements(read);
        let letters = classes();
        let by = ByBits {
            pattern: read,
            vectors: &table,
            classes: &letters,
        };
        mark(by, self, stretch, &mut *marks)
    }

    // What any 64-bit number carries, whether or not it is the state of a pattern.
    pub fn carried(self) -> Carried
        ensures { result ≡ carried_by self.bits }
    {
        let lengths = self.bits & !1;
        let count = u64::count_ones(lengths);
        if count == 0 {
            return Carried {
                count: 0,
                shortest: 0,
            };
        }
        let shortest = u64::trailing_zeros(lengths);
        Carried { count, shortest }
    }
}
