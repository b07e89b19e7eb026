// Words of 64 bits as bytes, low byte first (RFC 7693, 2.4): the sixteen words of a block, and the bytes of the digest.
ghost use Rattle.std.specs.Prelude.{◌≡◌, ◌+◌, ◌≤◌, length};
ghost use Rattle.digest.specs.Words.{word_at, block_at, first32};

// The word whose eight bytes stand from place p on. The compiler makes one load of them.
#[tactic(auto, unfolding(crate::specs::Words::word_at))]
fn word_at(s: &[u8], p: usize) -> u64
    requires { p + 8 ≤ length s.now }
    ensures { result ≡ word_at s.now p }
{
    u64::from_le_bytes([
        s[p],
        s[p + 1],
        s[p + 2],
        s[p + 3],
        s[p + 4],
        s[p + 5],
        s[p + 6],
        s[p + 7],
    ])
}

// The words of the block that the bytes begin with.
pub(crate) fn read(s: &[u8]) -> [u64; 16]
    requires { 128 ≤ length s.now }
    ensures { result ≡ block_at s.now 0 }
{
    let mut m = [0; 16];
    for i in 0..16 {
        m[i] = word_at(s, i * 8);
    }
    m
}

// The first 32 bytes of the state.
pub(crate) fn result(h: &[u64; 8]) -> [u8; 32]
    ensures { result ≡ first32 h.now }
{
    let mut bytes = [0; 32];
    for i in 0..4 {
        bytes[i * 8..i * 8 + 8].copy_from_slice(&h[i].to_le_bytes());
    }
    bytes
}
