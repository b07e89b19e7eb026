// Numbers in the bytes of a stretch, low byte first: one byte, and two bytes both ways.
ghost use Rattle.std.specs.Prelude.{◌≡◌, ◌+◌, ◌<◌, ◌≤◌, length, nat_le};
ghost use Rattle.layout.specs.Bytes.{word, word_at, word_bytes, put};

// A byte as a number.
pub fn wide(byte: u8) -> usize
    ensures { (result ≡ byte) × (result < 256) }
{
    usize::from(byte)
}

// The number of the two bytes at place `at`, which are there.
pub(crate) fn pair(bytes: &[u8], at: usize) -> usize
    requires { at + 2 ≤ length bytes.now }
    ensures { (result ≡ word bytes.now at) × (result < 65536) }
{
    usize::from(u16::from_le_bytes([bytes[at], bytes[at + 1]]))
}

// The same of any place: 0 where the two bytes are not there.
pub fn word_at(bytes: &[u8], at: usize) -> usize
    ensures { (result ≡ word_at bytes.now at) × (result < 65536) }
{
    if !has_room(bytes.len(), at, 2) {
        return 0;
    }
    pair(bytes, at)
}

// Whether that many more bytes from place `at` on have room in `size`.
pub(crate) fn has_room(size: usize, at: usize, more: usize) -> bool
    ensures { result ≡ nat_le (at + more) size }
{
    if size < at {
        return false;
    }
    more <= size - at
}

// The two bytes of a number, put at place `at`; nothing is put where they have no room.
pub(crate) fn put_word(n: usize, out: &mut [u8], at: usize)
    ensures { out.new ≡ put out.old at (word_bytes n) }
{
    if !has_room(out.len(), at, 2) {
        return;
    }
    out[at] = (n % 256) as u8;
    out[at + 1] = (n / 256 % 256) as u8;
}
