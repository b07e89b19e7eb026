// The first hit: whether a stretch is clear, and if not, the first segment in which an occurrence ends. It is the run of the searches,
// which stops there: what stands after is not read, and no mark is kept. The right call where one end decides.
ghost use Rattle.std.specs.Prelude.{◌≡◌};
ghost use Rattle.search.specs.First.{firsting, told_first, told_hit, Few};
ghost use Rattle.text.specs.Refusal.{outcome};

use crate::entry::enter;
use crate::marking::Marked;
use crate::method::ByBits;
use crate::run::run;
use crate::state::State;
use crate::vectors::complements;
use layout::walk::Walk;
use text::Refusal;
use text::spelling::classes;
use text::strand::{Strand, read_on};

// The first segment in which an occurrence ends; or the state after a sound stretch in which nothing ends.
// Stays an enum of its own: its name and shape are fixed.
#[derive(Clone, Copy)]
pub enum First {
    Ends(usize),
    None(State),
    Refused(Refusal),
}

impl State {
    // The first segment in which an occurrence of the pattern ends, as the strand reads it: refusals 1, 2, 3, 4, 17. Where no segment
    // that reads whole before the first fault ends one, the answer is that fault's refusal, or the state after a sound stretch.
    pub fn first(self, pattern: &[u8], strand: Strand, stretch: &[u8]) -> First
        ensures { told_first result ≡ firsting pattern.now strand self.bits stretch.now }
    {
        match self.stopped(pattern, strand, stretch) {
            Err(refused) => First::Refused(refused),
            Ok(marked) => {
                if marked.ends == 0 {
                    return First::None(marked.state);
                }
                First::Ends(marked.segments - 1)
            }
        }
    }

    // What the run up to the first end tells.
    fn stopped(
        self,
        pattern: &[u8],
        strand: Strand,
        stretch: &[u8],
    ) -> Result<Marked<State>, Refusal>
        ensures value { told_hit result ≡ firsting pattern.now strand self.bits stretch.now }
        ensures few { Few result }
    {
        enter(pattern, self, stretch)?;
        let m = pattern.len();
        let bytes = read_on(strand, pattern);
        let read = &bytes[..m];
        let table = complements(read);
        let letters = classes();
        let by = ByBits {
            pattern: read,
            vectors: &table,
            classes: &letters,
        };
        let walk = Walk::open(stretch)?;
        let mut kept = [0u8; 0];
        run(true, by, self, stretch, walk, &mut kept)
    }
}
