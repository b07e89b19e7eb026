// Equality by meaning for strings that may be long and begin alike: from the last letter to the first, eight at a step as long as the
// bytes are the same.
ghost use Rattle.std.specs.Prelude.{◌+◌, ◌<◌, ◌≤◌, ◌≡◌, length};
ghost use Rattle.text.specs.Compare.{alike};
ghost use Rattle.text.specs.FromEnd.{two, four, eight, SameFrom};

use crate::compare::differ;

// A byte as a number.
fn wide(byte: u8) -> u64
    ensures { (result ≡ byte) × (result < 256) }
{
    u64::from(byte)
}

// Two bytes as one number; the compiler makes one load of two, of four and of eight. By halves, and not by `u64::from_le_bytes`: the proof
// of that did not close.
fn two(s: &[u8], at: usize) -> u64
    requires { at + 2 ≤ length s.now }
    ensures { (result ≡ two s.now at) × (result < 0x1_0000) }
{
    let low = wide(s[at]);
    let high = wide(s[at + 1]);
    low + high * 0x100
}

// Four bytes as one number.
fn four(s: &[u8], at: usize) -> u64
    requires { at + 4 ≤ length s.now }
    ensures { (result ≡ four s.now at) × (result < 0x1_0000_0000) }
{
    let low = two(s, at);
    let high = two(s, at + 2);
    low + high * 0x1_0000
}

// Eight bytes as one number.
fn eight(s: &[u8], at: usize) -> u64
    requires { at + 8 ≤ length s.now }
    ensures { result ≡ eight s.now at }
{
    let low = four(s, at);
    let high = four(s, at + 4);
    low + high * 0x1_0000_0000
}

// A place from which on two strings of one length are the same bytes, as far to the front as steps of eight lead, which no iterator takes. The first eight
// are one step, though some of them may be compared already.
fn same_from(a: &[u8], b: &[u8]) -> usize
    requires { length a.now ≡ length b.now }
    ensures { SameFrom a.now b.now result }
{
    let mut i = a.len();
    while 8 <= i {
        let from = i - 8;
        if eight(a, from) != eight(b, from) {
            return i;
        }
        i = from;
    }
    if a.len() < 8 {
        return i;
    }
    if eight(a, 0) != eight(b, 0) {
        return i;
    }
    0
}

// Whether a and b mean the same letters, whatever their case: the lengths first, then from the last letter to the first. Where the
// bytes are no longer the same it goes on letter by letter, and mostly ends with the first.
pub fn alike_from_end(a: &[u8], b: &[u8]) -> bool
    ensures { result ≡ alike a.now b.now }
{
    if a.len() != b.len() {
        return false;
    }
    for i in (0..same_from(a, b)).rev() {
        if differ(a[i], b[i]) {
            return false;
        }
    }
    true
}
