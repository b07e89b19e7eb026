// The carried lengths over one variant, all at once. A carried length is only ever moved on by the letters that fit, so one pass
// from the union of many states tells what becomes of each of them.
ghost use Rattle.card.specs.RowStep.{Alive, Moves};

use text::state::low;

// What one pass over a variant's letters makes of the carried lengths: those reached after it, and which of those carried in end
// an occurrence in it.
#[derive(Clone, Copy)]
pub struct Moved {
    pub reached: u64,
    pub finished: u64,
}

// A pass from the lengths `live`, with no fresh start. It stops as soon as none is left.
pub fn carry(pattern: &[u8], masks: &[u64; 256], live: u64, variant: &[u8]) -> Moved
    requires { Alive pattern.now masks.now live }
    ensures { Moves pattern.now live variant.now result.reached result.finished }
{
    let m = pattern.len();
    let last = 1 << (m - 1);
    let mut d = live;
    let mut finished = 0;
    for (i, letter) in variant.iter().enumerate() {
        if d == 0 {
            return Moved {
                reached: 0,
                finished,
            };
        }
        let e = d & masks[*letter as usize];
        // What stands at the last base now was carried in i bases before it.
        finished |= (e & last) >> i;
        d = e << 1;
    }
    Moved {
        reached: d & low(m),
        finished,
    }
}
