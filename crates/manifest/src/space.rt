// Room for a manifest.
ghost use Rattle.std.specs.Prelude.{◌≡◌, length};

// The most bytes of a manifest that programs read and write: some 6,000 stretches. The prover does not see through longer arrays.
pub const MOST_BYTES: usize = 524288;

// As many zeros. The promise gives the length, which lending the array as a slice needs.
pub fn room() -> [u8; MOST_BYTES]
    ensures { 524288 ≡ length result }
{
    [0; MOST_BYTES]
}
