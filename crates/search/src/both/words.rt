// The step of one variant by bit-vectors on both strands: a word for each, in one letter loop. The letter vectors of both stand in one
// table, side by side, so that a machine with words of 128 bits takes both at once.
ghost use Rattle.std.specs.Prelude.{◌≡◌};
ghost use Rattle.std.specs.Int.Bits.{bit_and};
ghost use Rattle.search.specs.Masks.{bases, Others};
ghost use Rattle.search.specs.Words.{ScannedBy};
ghost use Rattle.search.specs.Either.{evens, odds};

use crate::vectors::complements;

// A word for the strand as given, and one for the opposite strand.
#[derive(Clone, Copy)]
pub struct Pair {
    pub given: u64,
    pub opposite: u64,
}

impl Pair {
    // Nothing is carried on either strand.
    pub const FRESH: Pair = Pair {
        given: 1,
        opposite: 1,
    };

    // Complemented words before a segment's first variant: where it leads to, bit 0 apart, and what was met on the way. Both are none.
    pub(crate) const UNREACHED: Pair = Pair {
        given: 0xffff_ffff_ffff_fffe,
        opposite: 0xffff_ffff_ffff_fffe,
    };

    pub(crate) const UNMET: Pair = Pair {
        given: 0xffff_ffff_ffff_ffff,
        opposite: 0xffff_ffff_ffff_ffff,
    };

    // The bits that both words have with those of another pair.
    pub(crate) fn and(self, more: Pair) -> Pair
        ensures { (result.given ≡ bit_and self.given more.given) × (result.opposite ≡ bit_and self.opposite more.opposite) }
    {
        Pair {
            given: self.given & more.given,
            opposite: self.opposite & more.opposite,
        }
    }
}

// What one pass over a variant's letters finds on each strand, as a scan of one strand tells it.
#[derive(Clone, Copy)]
pub struct ScannedBoth {
    pub out: Pair,
    pub missed: Pair,
    pub wrong: bool,
}

// The complemented letter vectors of both strands: the strand as given in the even entries, the opposite one in the odd entries.
pub fn masks_both(given: &[u8], opposite: &[u8]) -> [u64; 512]
    ensures others { Others (bases given.now) (evens result) }
    ensures others_2 { Others (bases opposite.now) (odds result) }
{
    let evens = complements(given);
    let odds = complements(opposite);
    let mut table = [0u64; 512];
    for c in 0..256 {
        let even = 2 * c;
        table[even] = evens[c];
        table[even + 1] = odds[c];
    }
    table
}

// The words that the variant leads to, as the scan of one strand has them.
pub fn scan_both(
    table: &[u64; 512],
    classes: &[u8; 256],
    bits: Pair,
    before: Pair,
    variant: &[u8],
) -> ScannedBoth
    ensures scanned_by { ScannedBy (evens table.now) classes.now bits.given before.given variant.now
        result.out.given result.missed.given result.wrong }
    ensures scanned_by_2 { ScannedBy (odds table.now) classes.now bits.opposite before.opposite variant.now
        result.out.opposite result.missed.opposite result.wrong }
{
    let mut d = !bits.given;
    let mut e = !bits.opposite;
    let mut missed = before.given;
    let mut met = before.opposite;
    let mut bad = 0u8;
    for letter in variant {
        let c = *letter as usize;
        bad |= classes[c];
        let even = 2 * c;
        let f = d | table[even];
        let g = e | table[even + 1];
        missed &= f;
        met &= g;
        d = f << 1;
        e = g << 1;
    }
    ScannedBoth {
        out: Pair {
            given: d,
            opposite: e,
        },
        missed: Pair {
            given: missed,
            opposite: met,
        },
        wrong: bad != 0,
    }
}
