// What a variant makes of carried lengths: where it leads them, and whether it has the bases that remain.
ghost use Rattle.std.specs.Prelude.{◌<◌, ◌^◌, length};
ghost use Rattle.text.specs.Refusal.{SoundPattern};
ghost use Rattle.text.specs.Letter.{meant};
ghost use Rattle.search.specs.BorderStep.{CarriesOne, CarriesAll};

use crate::borders::Stepped;
use text::compare::alike_prefix;

// One carried length q. A variant that has the remaining bases as a prefix ends an occurrence; one that is a prefix of them, and not
// all of them, leads on.
fn carried_one(pattern: &[u8], q: usize, variant: &[u8]) -> Stepped
    requires sound_pattern { SoundPattern pattern.now }
    requires q_in_bounds { q < length pattern.now }
    ensures { CarriesOne pattern.now q (meant variant.now) result.bits result.ends }
{
    let m = pattern.len();
    let n = variant.len();
    let rest = m - q;
    if rest <= n {
        return Stepped {
            bits: 0,
            ends: alike_prefix(&pattern[q..], variant),
        };
    }
    if alike_prefix(variant, &pattern[q..]) {
        let bits = 1 << (q + n);
        Stepped { bits, ends: false }
    } else {
        Stepped {
            bits: 0,
            ends: false,
        }
    }
}

// Every carried length of a state, one after another; its bit 0 is passed over.
pub fn carried(pattern: &[u8], state: u64, variant: &[u8]) -> Stepped
    requires sound_pattern { SoundPattern pattern.now }
    requires state_bound { state < 2 ^ length pattern.now }
    ensures { CarriesAll pattern.now state (length pattern.now) (meant variant.now)
        result.bits result.ends }
{
    let mut bits = 0;
    let mut ends = false;
    let mut rest = state / 2;
    let mut q = 1;
    // Stays a while: it ends at the highest bit that is set, mostly at once, and not at a count.
    while rest != 0 {
        if rest % 2 == 1 {
            let one = carried_one(pattern, q, variant);
            bits |= one.bits;
            ends |= one.ends;
        }
        rest /= 2;
        q += 1;
    }
    Stepped { bits, ends }
}
