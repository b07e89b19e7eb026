// Where a withheld sequence stands that is searched to its first end alone, and how one more stretch moves it. One that has ended is
// searched no further.
ghost use Rattle.std.specs.Prelude.{◌≡◌, min};
ghost use Rattle.search.specs.First.{told_first};
ghost use Rattle.text.specs.Refusal.{outcome};
ghost use Rattle.desk_verdict.specs.First.{earlier, on_both, ended, gone, halting};

use crate::standing::Standing;
use crate::sum::plus;
use layout::walk::stated;
use search::{First, Pair, State};
use text::Refusal;
use text::strand::Strand;

// The first segment of a stretch in which the sequence ends on either strand; or the states after it.
#[derive(Clone, Copy)]
enum Heard {
    Ends(usize),
    Nowhere(Pair),
}

// The first segment of a stretch in which the sequence ends, if it does, and where it then stands: there, or after the whole of it.
#[derive(Clone, Copy)]
pub struct Stopped {
    pub end: Option<usize>,
    pub standing: Standing,
}

// What two strands say of one stretch: the earlier end, whatever fault is after it; a refusal where neither ends. One match in the
// other, since a match on the pair of them is not proved.
fn earlier(own: First, other: First) -> Result<Heard, Refusal>
    ensures { outcome result ≡ earlier (told_first own) (told_first other) }
{
    match own {
        First::Ends(segment) => match other {
            First::Ends(turned) => Ok(Heard::Ends(segment.min(turned))),
            _ => Ok(Heard::Ends(segment)),
        },
        First::None(given) => match other {
            First::Ends(turned) => Ok(Heard::Ends(turned)),
            First::None(opposite) => Ok(Heard::Nowhere(Pair {
                given: given.bits,
                opposite: opposite.bits,
            })),
            First::Refused(wrong) => Err(wrong),
        },
        First::Refused(wrong) => match other {
            First::Ends(turned) => Ok(Heard::Ends(turned)),
            _ => Err(wrong),
        },
    }
}

// Both strands of one stretch, each from where it stands.
#[tactic(auto, unfolding(crate::specs::First::on_both))]
fn on_both(pattern: &[u8], standing: Standing, stretch: &[u8]) -> Result<Heard, Refusal>
    ensures { outcome result ≡ on_both pattern.now standing stretch.now }
{
    let state = standing.state;
    let given = State { bits: state.given };
    let opposite = State {
        bits: state.opposite,
    };
    let own = given.first(pattern, Strand::Given, stretch);
    let other = opposite.first(pattern, Strand::Opposite, stretch);
    earlier(own, other)
}

// Where a sequence stands that ends in this segment of a stretch: one of the segments up to this one.
fn ended(standing: Standing, segment: usize) -> Standing
    ensures { result ≡ ended standing segment }
{
    let read = plus(segment as u64, 1);
    Standing {
        segments: plus(standing.segments, read),
        ends: 1,
        ..standing
    }
}

// Where a sequence stands after a stretch of that many segments in which it does not end, from the states there.
fn gone(standing: Standing, state: Pair, count: usize) -> Standing
    ensures { result ≡ gone standing state count }
{
    Standing {
        state,
        segments: plus(standing.segments, count as u64),
        ends: 0,
    }
}

// Searches one more stretch on both strands, each from where it stands, up to the first segment in which the sequence ends on either.
// A sequence that has ended stays where it stands, and nothing is read.
#[tactic(auto, unfolding(crate::specs::First::halting))]
pub fn pass_first(pattern: &[u8], standing: Standing, stretch: &[u8]) -> Result<Stopped, Refusal>
    ensures { outcome result ≡ halting pattern.now standing stretch.now }
{
    if standing.ends != 0 {
        return Ok(Stopped {
            end: None,
            standing,
        });
    }
    match on_both(pattern, standing, stretch)? {
        Heard::Ends(segment) => Ok(Stopped {
            end: Some(segment),
            standing: ended(standing, segment),
        }),
        Heard::Nowhere(state) => Ok(Stopped {
            end: None,
            standing: gone(standing, state, stated(stretch)),
        }),
    }
}
