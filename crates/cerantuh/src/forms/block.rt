// What C is told: one number, and the results in a lent block, 8 bytes each, low byte first.
ghost use Rattle.std.specs.Prelude.{◌≡◌, ◌+◌, ◌*◌, ◌^◌, ◌≤◌, ◌<◌, length};
ghost use Rattle.layout.specs.Bytes.{over};
ghost use Rattle.layout.specs.Bytes.{left_by};
ghost use Rattle.cerantuh.specs.Forms.{low_first, coded, two_into};

use text::{Refusal, refusal};

// The bytes of two results.
const TWO_RESULTS: usize = 16;

// The refusal number plus 256 times the place.
pub fn code(wrong: Refusal) -> u64
    requires { wrong.number + 256 * wrong.place < 2 ^ 64 }
    ensures { result ≡ wrong.number + 256 * wrong.place }
{
    wrong.number + 256 * wrong.place as u64
}

// Writes a number over the 8 bytes from `at` on.
pub fn put(number: u64, block: &mut [u8], at: usize)
    requires { at + 8 ≤ length block.old }
    ensures { block.new ≡ over block.old at (low_first 8 number) }
{
    block[at..at + 8].copy_from_slice(&number.to_le_bytes());
}

// The answer of a call that has two results: they go into the block, whose room is asked last.
pub fn two(first: u64, second: u64, block: &mut [u8]) -> u64
    ensures value { result ≡ coded (two_into first second (length block.old)) }
    ensures block_after { block.new
        ≡ left_by (λ bytes. bytes) (two_into first second (length block.old)) block.old }
{
    if block.len() < TWO_RESULTS {
        return refusal::BUFFER_SHORT;
    }
    put(first, &mut *block, 0);
    put(second, &mut *block, 8);
    0
}
