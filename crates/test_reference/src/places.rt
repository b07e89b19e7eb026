// What stands at which place of a stretch, as the tests know it, with nothing of the library: its variants and what their letters mean, a
// text taken apart, the opposite strand of a pattern, and bytes put at a place.
mod apart;
mod meanings;
mod parts;
mod strands;

pub use apart::{counts, lengths, letters, raised};
pub use meanings::{alike, meant, repeats};
pub use parts::{
    Place, behind, byte_at, letters_at, part, place_of, put, put_part, segment_at, skip,
    variants_before, word_at,
};
pub use strands::{turned, unite};
