// The rows as they are held, and those of no segments: each carried length leaves as it came.
ghost use Rattle.std.specs.Prelude.{◌≡◌, replicate};
ghost use Rattle.text.specs.Card.{none};
ghost use Rattle.text.specs.Refusal.{greatest_pattern};
ghost use Rattle.card.specs.Held.{lones};

use crate::rows::ends::NONE;
use text::limits;

// For each carried length the state that leaves and the first segment where an occurrence ends. Row q is of a lone q carried in, row 0
// of nothing carried in; from m up nothing leaves or ends.
// Two arrays side by side, as in a card: row after row is shifted and masked by itself.
#[derive(Clone, Copy)]
pub struct Rows {
    pub exits: [u64; limits::GREATEST_PATTERN],
    pub firsts: [u32; limits::GREATEST_PATTERN],
}

impl Rows {
    // The rows of no segments: bit q alone leaves in row q below m.
    pub fn lone(m: usize) -> Rows
        ensures { result ≡ record { exits = lones m; firsts = replicate greatest_pattern none } }
    {
        let mut exits = [0u64; limits::GREATEST_PATTERN];
        for q in 0..m.min(limits::GREATEST_PATTERN) {
            exits[q] = 1 << q;
        }
        Rows {
            exits,
            firsts: [NONE; limits::GREATEST_PATTERN],
        }
    }
}
