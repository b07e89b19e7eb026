// The letter vectors of a pattern, as they are told to callers: the search keeps their complement.
ghost use Rattle.search.specs.Masks.{bases, Masks};

use crate::vectors::filled;

// The letter vector of what each byte means: bit k is set where base k of the pattern is that letter.
pub fn masks(pattern: &[u8]) -> [u64; 256]
    ensures { Masks (bases pattern.now) result }
{
    filled(pattern, 0)
}
