// The lines of a manifest, put into a buffer from a place on: as many bytes as there is room for. Each call tells the place after what
// it has put.
ghost use Rattle.std.specs.Prelude.{◌≡◌, ◌<◌, take};
ghost use Rattle.lines.specs.Puts.{Put};
ghost use Rattle.manifest.specs.Written.{glyph, hex_of, head_line, entry_for, entry_line, counts_line, digest_line, end_lines};

use digest::digest;
use lines::{put_bytes, put_number};

// The first line.
pub const HEAD: [u8; 18] = *b"# cerantuh text 1\n";

// A hex digit.
fn glyph(d: u8) -> u8
    requires { d < 16 }
    ensures { result ≡ glyph d }
{
    if d < 10 { 48 + d } else { 87 + d }
}

// Two hex digits for each of the bytes.
fn put_hex(bytes: &[u8], out: &mut [u8], at: usize) -> usize
    ensures { Put out.old at (hex_of bytes.now) out.new result }
{
    let mut next = at;
    for byte in bytes {
        let pair = [glyph(*byte / 16), glyph(*byte % 16)];
        next = put_bytes(&pair, &mut *out, next);
    }
    next
}

// A digest: 64 hex digits.
pub fn put_digest(digest: [u8; 32], out: &mut [u8], at: usize) -> usize
    ensures { Put out.old at (hex_of digest) out.new result }
{
    put_hex(&digest, &mut *out, at)
}

// The first line.
pub fn put_head(out: &mut [u8], at: usize) -> usize
    ensures { Put out.old at head_line out.new result }
{
    put_bytes(&HEAD, &mut *out, at)
}

// A stretch's line: its digest and its name.
pub fn put_stretch(stretch: &[u8], name: &[u8], out: &mut [u8], at: usize) -> usize
    ensures { Put out.old at (entry_line (entry_for stretch.now name.now)) out.new result }
{
    let blanks = put_digest(digest(stretch), &mut *out, at);
    let from = put_bytes(b"  ", &mut *out, blanks);
    let end = put_bytes(name, &mut *out, from);
    put_bytes(b"\n", &mut *out, end)
}

// The last line but one: how many stretches, segments and bytes there are.
pub fn put_counts(stretches: u64, segments: u64, bytes: u64, out: &mut [u8], at: usize) -> usize
    ensures { Put out.old at (counts_line stretches segments bytes) out.new result }
{
    let one = put_bytes(b"# stretches ", &mut *out, at);
    let two = put_number(stretches, &mut *out, one);
    let three = put_bytes(b", segments ", &mut *out, two);
    let four = put_number(segments, &mut *out, three);
    let five = put_bytes(b", bytes ", &mut *out, four);
    let six = put_number(bytes, &mut *out, five);
    put_bytes(b"\n", &mut *out, six)
}

// The last line: the digest of the bytes before it.
pub fn put_seal(digest: [u8; 32], out: &mut [u8], at: usize) -> usize
    ensures { Put out.old at (digest_line digest) out.new result }
{
    let from = put_bytes(b"# digest ", &mut *out, at);
    let end = put_digest(digest, &mut *out, from);
    put_bytes(b"\n", &mut *out, end)
}

// The last two lines, after the bytes that stand in front of the buffer.
pub fn put_end(stretches: u64, segments: u64, bytes: u64, out: &mut [u8], at: usize) -> usize
    ensures { Put out.old at (end_lines (take at out.old) stretches segments bytes) out.new result }
{
    let end = put_counts(stretches, segments, bytes, &mut *out, at);
    if out.len() < end {
        return end;
    }
    let seal = digest(&out[..end]);
    put_seal(seal, &mut *out, end)
}
