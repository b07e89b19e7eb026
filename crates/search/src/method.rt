// The two methods, each a pattern with the tables that it needs: one walk serves both.
ghost use Rattle.std.specs.Prelude.{◌≡◌, ℕ, List, length};
ghost use Rattle.text.specs.Letter.{Classes};
ghost use Rattle.text.specs.Refusal.{SoundPattern};
ghost use Rattle.search.specs.Border.{Bordered, Borders};
ghost use Rattle.search.specs.Masks.{Others, StateOf};
ghost use Rattle.search.specs.Words.{LettersBy};

use crate::bits::{Scanned, scan};
use crate::borders::step_borders;
use text::spelling::any_wrong;

pub trait Method: Copy {
    ghost pattern: { Self → List ℕ };

    // That the tables are those of the pattern.
    ghost founded: { Self → Type 0 };

    // How many bases the pattern has.
    fn bases(self) -> usize
        ensures { result ≡ length (pattern self) };

    // A variant's letters.
    fn scan(self, bits: u64, before: u64, letters: &[u8]) -> Scanned
        requires { founded self × StateOf (pattern self) bits }
        ensures { LettersBy (pattern self) bits before letters.now result.out result.missed result.wrong };

    ghost sized: { (m : Self) → founded m → SoundPattern (pattern m) };
}

// The complement of the letter vectors, and which bytes are letters.
#[derive(Clone, Copy)]
pub struct ByBits<'a> {
    pub pattern: &'a [u8],
    pub vectors: &'a [u64; 256],
    pub classes: &'a [u8; 256],
}

impl<'a> Method for ByBits<'a> {
    ghost pattern = { λ m. m.pattern.now };

    ghost founded = { λ m. SoundPattern m.pattern.now × Others m.pattern.now m.vectors.now × Classes m.classes.now };

    fn bases(self) -> usize {
        self.pattern.len()
    }

    fn scan(self, bits: u64, before: u64, letters: &[u8]) -> Scanned {
        scan(self.vectors, self.classes, bits, before, letters)
    }

    ghost sized = { λ m f. f.0 };
}

// The border table.
#[derive(Clone, Copy)]
pub struct ByBorders<'a> {
    pub pattern: &'a [u8],
    pub borders: &'a [u64; 256],
}

impl<'a> Method for ByBorders<'a> {
    ghost pattern = { λ m. m.pattern.now };

    ghost founded = { λ m. SoundPattern m.pattern.now × Borders m.pattern.now m.borders.now };

    fn bases(self) -> usize {
        self.pattern.len()
    }

    fn scan(self, bits: u64, before: u64, letters: &[u8]) -> Scanned {
        scan_borders(self.pattern, self.borders, bits, before, letters)
    }

    ghost sized = { λ m f. f.0 };
}

// A variant's letters by border tables, told as a scan tells it: an occurrence that ends takes the last bit out of what was missed.
fn scan_borders(
    pattern: &[u8],
    table: &[u64; 256],
    bits: u64,
    before: u64,
    letters: &[u8],
) -> Scanned
    requires { Bordered pattern.now table.now bits }
    ensures { LettersBy pattern.now bits before letters.now result.out result.missed result.wrong }
{
    if any_wrong(letters) {
        return Scanned {
            out: 0,
            missed: 0,
            wrong: true,
        };
    }
    let stepped = step_borders(pattern, table, bits, letters);
    if stepped.ends {
        let missed = before & !(1 << (pattern.len() - 1));
        return Scanned {
            out: !stepped.bits,
            missed,
            wrong: false,
        };
    }
    Scanned {
        out: !stepped.bits,
        missed: before,
        wrong: false,
    }
}
