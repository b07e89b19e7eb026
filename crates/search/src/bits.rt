// The step of one variant by bit-vectors: shift-and with one word (Grossi et al., CPM 2017, section 5, with the ranges of its
// letter vectors corrected: they hold the last base too). The right step for every pattern of up to 64 bases.
// Words are complemented (shift-or): a shift brings the fresh start in by itself, and the loop-carried dependency is shorter.
ghost use Rattle.search.specs.Words.{ScannedBy};

// What one pass over a variant's letters finds. `out`: complement of the final state word; `missed`: bits set in no word yet; `wrong`:
// a byte is no letter.
#[derive(Clone, Copy)]
pub struct Scanned {
    pub out: u64,
    pub missed: u64,
    pub wrong: bool,
}

// One variant's letters. Bits from m up are cleared once, after each segment: the letter vectors have none.
pub fn scan(
    others: &[u64; 256],
    classes: &[u8; 256],
    bits: u64,
    before: u64,
    variant: &[u8],
) -> Scanned
    ensures { ScannedBy others.now classes.now bits before variant.now
        result.out result.missed result.wrong }
{
    let mut out = !bits;
    let mut missed = before;
    let mut bad = 0u8;
    for letter in variant {
        let c = *letter as usize;
        bad |= classes[c];
        let e = out | others[c];
        missed &= e;
        out = e << 1;
    }
    Scanned {
        out,
        missed,
        wrong: bad != 0,
    }
}
