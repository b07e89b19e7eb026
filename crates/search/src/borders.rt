// One variant's step by border tables (Grossi et al., CPM 2017, section 4): a scan after Knuth, Morris and Pratt for what begins in the
// variant, or suffix tests of it where it is shorter than the pattern, and one prefix test for each carried length. The scan is linear in
// the variant's letters; suffix tests compare at most half of a variant for each of its letters, and few as a rule. The chain of borders
// at its end and each carried length cost at most m more.
ghost use Rattle.std.specs.Prelude.{◌≡◌, true};
ghost use Rattle.text.specs.Letter.{letter, meant, every};
ghost use Rattle.search.specs.Border.{Bordered};
ghost use Rattle.search.specs.Step.{Steps};

use crate::borders::begun::begun;
use crate::borders::carried::carried;

mod begun;
mod carried;
mod table;

pub use table::border_table;

// The state that one variant leads to, and whether an occurrence ends in it.
#[derive(Clone, Copy)]
pub struct Stepped {
    pub bits: u64,
    pub ends: bool,
}

// The state that `bits` leads to by one variant, and whether an occurrence ends in it.
pub fn step_borders(pattern: &[u8], table: &[u64; 256], bits: u64, variant: &[u8]) -> Stepped
    requires bordered { Bordered pattern.now table.now bits }
    requires variant_value { every letter variant.now ≡ true }
    ensures { Steps pattern.now bits (meant variant.now) result.bits result.ends }
{
    let sent = carried(pattern, bits, variant);
    let fresh = begun(pattern, table, variant);
    Stepped {
        bits: sent.bits | fresh.bits,
        ends: sent.ends | fresh.ends,
    }
}
