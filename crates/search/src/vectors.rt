// The tables of the search by bit-vectors, filled once for each call and lent to the loops. The loops keep words complemented,
// so the letter vectors that they are lent are complemented too; plain ones stand in letter_vectors.rt.
ghost use Rattle.search.specs.Masks.{bases, Filled, Others};

use text::limits;

// A table of blank words, in which bit k of what base k of the pattern is has been flipped. Of a pattern over 64 bytes the first 64
// count, since a word has no more bits. Lower case has the entries of upper case, so that the loops look at a letter once.
pub fn filled(pattern: &[u8], blank: u64) -> [u64; 256]
    ensures { Filled blank (bases pattern.now) result }
{
    let m = pattern.len().min(limits::GREATEST_PATTERN);
    let mut table = [blank; 256];
    for k in 0..m {
        let c = pattern[k] as usize;
        table[c] ^= 1 << k;
    }
    table[0x6E] = table[0x4E];
    table[0x74] = table[0x54];
    table[0x67] = table[0x47];
    table[0x63] = table[0x43];
    table[0x61] = table[0x41];
    table
}

// The complement of the letter vector of what each byte means: bit k is clear where base k of the pattern is that letter.
pub fn complements(pattern: &[u8]) -> [u64; 256]
    ensures { Others (bases pattern.now) result }
{
    filled(pattern, 0xffff_ffff_ffff_ffff)
}
