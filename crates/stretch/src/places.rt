// Places in a stretch that was checked: its segments and variants are stepped over, not read again.
ghost use Rattle.std.specs.Prelude.{◌≤◌, ◌≡◌, length};
ghost use Rattle.layout.specs.Skips.{behind_variants, segment_place};

use layout::number::{wide, word_at};
use layout::{FIRST_LETTER, FIRST_SEGMENT, FIRST_VARIANT};

// The place after k variants, of which the first stands at `first`.
pub fn behind_variants(stretch: &[u8], k: usize, first: usize) -> usize
    requires { behind_variants stretch.now k first ≤ length stretch.now }
    ensures { result ≡ behind_variants stretch.now k first }
{
    let mut at = first;
    for _ in 0..k {
        let letters = word_at(stretch, at);
        at = at + FIRST_LETTER + letters;
    }
    at
}

// The place of segment k, where its variant count stands.
pub fn segment_place(stretch: &[u8], k: usize) -> usize
    requires { segment_place stretch.now k ≤ length stretch.now }
    ensures { result ≡ segment_place stretch.now k }
{
    let mut at = FIRST_SEGMENT;
    for _ in 0..k {
        let variants = wide(stretch[at]);
        at = behind_variants(stretch, variants, at + FIRST_VARIANT);
    }
    at
}
