// BLAKE2b of RFC 7693 with a digest of 32 bytes and no key: what `b2sum -l 256` of coreutils prints in hex.
#![tactic(auto)]

mod compression;
mod words;

ghost use Rattle.std.specs.Prelude.{◌≡◌, ◌-◌, ◌≤◌, length};
ghost use mathlib.Core.List.{foldl};
ghost use Rattle.digest.specs.Blake2b.{blake2b256};
ghost use Rattle.digest.specs.Updating.{emptied, begun, passed, put, with_bytes, end_of};

use compression::{IV, compress};
use words::{read, result};

// A hash of data that comes in pieces, by the names of RFC 7693, appendix C.2: the state h after all blocks but the last one, that block b
// with zeros after its bytes, how many bytes c of it are there, and the offset t, the number of bytes before it, modulo 2 ^ 128.
#[derive(Clone, Copy)]
pub struct Hashing {
    h: [u64; 8],
    // A count beside its block, with no invariant: `over` and `end` are promised for any values of these fields.
    b: [u8; 128],
    c: usize,
    t: u128,
}

impl Hashing {
    fn emptied(h: [u64; 8], t: u128) -> Hashing
        ensures { result ≡ emptied h t }
    {
        Hashing {
            h,
            b: [0u8; 128],
            c: 0,
            t,
        }
    }

    // A hash of no bytes yet.
    #[tactic(auto, unfolding(crate::specs::Blake2b::initial, crate::specs::Updating::begun))]
    pub fn new() -> Hashing
        ensures { result ≡ begun }
    {
        let mut h = IV;
        h[0] ^= 0x01010020;
        Hashing::emptied(h, 0)
    }

    // The bytes put into the block, which has room for them.
    fn fill(&mut self, bytes: &[u8])
        requires { length bytes.now ≤ 128 - self.old.c }
        ensures { self.new ≡ foldl put self.old bytes.now }
    {
        // `over` asks nothing of c: past the end of the block there is room for no byte.
        if !bytes.is_empty() {
            let start = self.c;
            let end = start + bytes.len();
            self.b[start..end].copy_from_slice(bytes);
            self.c = end;
        }
    }

    // The block compressed, and a new one begun.
    fn pass(&mut self)
        ensures { self.new ≡ passed self.old }
    {
        let t = self.t.wrapping_add(128);
        let h = compress(self.h, &read(&self.b), t, false);
        *self = Hashing::emptied(h, t);
    }

    // The same hash with these bytes after those that it had.
    pub fn over(mut self, bytes: &[u8]) -> Hashing
        ensures { result ≡ with_bytes self bytes.now }
    {
        let room = 128usize.saturating_sub(self.c);
        if bytes.len() <= room {
            self.fill(bytes);
            return self;
        }
        self.fill(&bytes[..room]);
        self.pass();
        let mut rest = &bytes[room..];
        // Holds the last block back, full or not: no iterator does.
        while 128 < rest.len() {
            self.t = self.t.wrapping_add(128);
            self.h = compress(self.h, &read(rest), self.t, false);
            rest = &rest[128..];
        }
        self.fill(rest);
        self
    }

    // The digest of all the bytes.
    pub fn end(self) -> [u8; 32]
        ensures { result ≡ end_of self }
    {
        let t = self.t.wrapping_add(self.c as u128);
        result(&compress(self.h, &read(&self.b), t, true))
    }
}

// The digest of these bytes.
pub fn digest(bytes: &[u8]) -> [u8; 32]
    ensures { result ≡ blake2b256 bytes.now }
{
    Hashing::new().over(bytes).end()
}
