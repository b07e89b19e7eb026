// States: which numbers are states of a pattern of m bases (refusal 17), and the number whose lowest m bits are set.
ghost use Rattle.std.specs.Prelude.{◌^◌, ◌≡◌, ltb};
ghost use Rattle.text.specs.Bits.{low};
ghost use Rattle.text.specs.State.{is_state};

// The number whose lowest m bits are set; all 64 for an m above 64.
pub fn low(m: usize) -> u64
    ensures { result ≡ low m }
{
    if 64 <= m {
        return 0xffff_ffff_ffff_ffff;
    }
    (1 << m) - 1
}

// Whether a number has no bit from m up.
pub fn within(m: usize, bits: u64) -> bool
    ensures { result ≡ ltb bits (2 ^ m) }
{
    bits <= low(m)
}

// Whether a number is a state for m bases: bit 0 is set, and no bit from m up.
pub fn is_state(m: usize, bits: u64) -> bool
    ensures { result ≡ is_state m bits }
{
    if bits % 2 == 0 {
        return false;
    }
    within(m, bits)
}
