// The border table of a pattern.
ghost use Rattle.text.specs.Refusal.{SoundPattern};
ghost use Rattle.search.specs.Border.{Borders, Matched, Next};

// The greatest length at which the pattern's first bases end its first k with the letter after them: the first base
// that fits after k, after its border, after that one's border, and so on.
pub fn fallback(pattern: &[u8], table: &[u64; 256], k: usize, letter: u8) -> usize
    requires { Matched pattern.now table.now k }
    ensures { Next pattern.now k letter result }
{
    let mut q = k;
    // Stays a while: it goes from border to border.
    while pattern[q] != letter {
        if q == 0 {
            return 0;
        }
        q = table[q] as usize;
    }
    q + 1
}

// Entry k is the border of the pattern's first k bases, for k from 0 to m.
pub fn border_table(pattern: &[u8]) -> [u64; 256]
    requires { SoundPattern pattern.now }
    ensures { Borders pattern.now result }
{
    let mut table = [0u64; 256];
    let mut k = 0;
    for i in 1..pattern.len() {
        k = fallback(pattern, &table, k, pattern[i]);
        table[i + 1] = k as u64;
    }
    table
}
