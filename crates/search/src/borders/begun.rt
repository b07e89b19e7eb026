// What a fresh start makes of a variant: the prefixes of the pattern that end it, and whether the pattern lies in it.
ghost use Rattle.std.specs.Prelude.{◌-◌, ◌<◌, ◌≡◌, true, length};
ghost use Rattle.text.specs.Refusal.{SoundPattern};
ghost use Rattle.text.specs.Letter.{letter, meant, every};
ghost use Rattle.search.specs.Border.{Borders, Longest};
ghost use Rattle.search.specs.BorderStep.{Begins, Scans};

use crate::borders::Stepped;
use crate::borders::table::fallback;
use text::compare::alike_suffix;

// What a scan tells: the longest prefix of the pattern, short of the whole, that ends the letters read, and whether the whole
// pattern lies in them.
#[derive(Clone, Copy)]
struct Scanned {
    longest: usize,
    whole: bool,
}

// Reads a variant letter by letter (Knuth, Morris and Pratt). A letter in lower case means the one in upper case, whose byte lacks one
// bit.
fn scan(pattern: &[u8], table: &[u64; 256], variant: &[u8]) -> Scanned
    requires sound_pattern { SoundPattern pattern.now }
    requires borders { Borders pattern.now table.now }
    requires variant_value { every letter variant.now ≡ true }
    ensures { Scans pattern.now (meant variant.now) result.longest result.whole }
{
    let m = pattern.len();
    let mut longest = 0;
    let mut whole = false;
    for letter in variant {
        let c = *letter & 0xDF;
        longest = fallback(pattern, table, longest, c);
        if longest == m {
            whole = true;
            longest = table[m] as usize;
        }
    }
    Scanned { longest, whole }
}

// The longest prefix of the pattern that ends a variant shorter than the pattern: the first that does, from the variant's length down.
fn longest_end(pattern: &[u8], variant: &[u8]) -> usize
    requires sound_pattern { SoundPattern pattern.now }
    requires variant_in_bounds { length variant.now < length pattern.now }
    ensures { Longest pattern.now (meant variant.now) (length pattern.now - 1) result }
{
    let mut k = variant.len();
    // Stays a while: it ends at a test, which k at 0 always passes, and not at a count.
    while !alike_suffix(&pattern[..k], variant) {
        k -= 1;
    }
    k
}

// A variant shorter than the pattern cannot have all of it, so only its end is looked at; any other is scanned.
fn looked_through(pattern: &[u8], table: &[u64; 256], variant: &[u8]) -> Scanned
    requires sound_pattern { SoundPattern pattern.now }
    requires borders { Borders pattern.now table.now }
    requires variant_value { every letter variant.now ≡ true }
    ensures { Scans pattern.now (meant variant.now) result.longest result.whole }
{
    if variant.len() < pattern.len() {
        return Scanned {
            longest: longest_end(pattern, variant),
            whole: false,
        };
    }
    scan(pattern, table, variant)
}

// Every prefix that ends the variant is the longest one, or its border, or that one's border, and so on down to none.
pub fn begun(pattern: &[u8], table: &[u64; 256], variant: &[u8]) -> Stepped
    requires sound_pattern { SoundPattern pattern.now }
    requires borders { Borders pattern.now table.now }
    requires variant_value { every letter variant.now ≡ true }
    ensures { Begins pattern.now (meant variant.now) result.bits result.ends }
{
    let scanned = looked_through(pattern, table, variant);
    let mut k = scanned.longest;
    let mut bits: u64 = 1 << k;
    // Stays a while: it goes from border to border.
    while k != 0 {
        k = table[k] as usize;
        bits |= 1 << k;
    }
    Stepped {
        bits,
        ends: scanned.whole,
    }
}
