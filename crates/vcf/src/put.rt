// The second pass: the text is put into a buffer that has room for it. Every line was checked before.
ghost use Rattle.std.specs.Prelude.{◌≡◌, ◌∷◌, ◌+◌, ◌≤◌, length};
ghost use Rattle.text.specs.Letter.{meant};
ghost use Rattle.layout.specs.Bytes.{over};
ghost use Rattle.layout.specs.Encoding.{bytes_of, encode_variant, encode_segment, encode};
ghost use Rattle.vcf.specs.Pieces.{pieces};
ghost use Rattle.vcf.specs.Records.{alternates};
ghost use Rattle.vcf.specs.Building.{window_text};
ghost use Rattle.vcf.specs.Surveys.{Readable};
ghost use Rattle.vcf.specs.Emission.{gap_of, Placing, line_text, line_base, line_left};

use crate::records::pieces::{COMMA, LINE_FEED, end_of, far_end, next_line};
use crate::records::position::position;
use crate::records::record::{Alleles, field, is_comment, is_none};
use crate::records::window::{Window, behind};
use crate::survey::Gathered;
use layout::{
    FIRST_SEGMENT, FIRST_VARIANT, after_variant, put_segments, put_variant, put_variants,
    segment_bytes,
};

// Bases as a segment of one variant, nothing where there are none. The place after them.
fn put_gap(bases: &[u8], out: &mut [u8], at: usize) -> usize
    requires { at + length (bytes_of encode_segment (gap_of (meant bases.now))) ≤ length out.old }
    ensures value { result ≡ at + length (bytes_of encode_segment (gap_of (meant bases.now))) }
    ensures out_after { out.new ≡ over out.old at (bytes_of encode_segment (gap_of (meant bases.now))) }
{
    let n = bases.len();
    if n == 0 {
        return at;
    }
    put_variants(1, &mut *out, at);
    put_variant(bases, &mut *out, at + FIRST_VARIANT);
    at + segment_bytes(n, 1)
}

// The alleles of ALT, one after another. The place after them.
fn put_alleles(alt: &[u8], out: &mut [u8], at: usize) -> usize
    requires { at + length (bytes_of encode_variant (pieces 0x2C (meant alt.now))) ≤ length out.old }
    ensures value { result ≡ at + length (bytes_of encode_variant (pieces 0x2C (meant alt.now))) }
    ensures out_after { out.new ≡ over out.old at (bytes_of encode_variant (pieces 0x2C (meant alt.now))) }
{
    let mut next = at;
    let mut from = 0;
    // Goes from comma to comma, as in `are_alleles`.
    loop {
        let end = end_of(alt, COMMA, from);
        put_variant(&alt[from..end], &mut *out, next);
        next = after_variant(next, end - from);
        if end == alt.len() {
            return next;
        }
        from = end + 1;
    }
}

// The number of pieces.
fn count(s: &[u8], mark: u8) -> usize
    requires { length (pieces mark s.now) ≤ 254 }
    ensures { result ≡ length (pieces mark s.now) }
{
    let mut n = 1;
    let mut from = 0;
    // Goes from mark to mark, as in `are_alleles`.
    loop {
        let end = end_of(s, mark, from);
        if end == s.len() {
            return n;
        }
        from = end + 1;
        n += 1;
    }
}

// A record's segment: its variant count, REF, and the alleles of ALT. The place after it.
fn put_record(alleles: Alleles, out: &mut [u8], at: usize) -> usize
    requires alt_len_bound { length (alternates (meant alleles.alt.now)) ≤ 254 }
    requires alt_in_bounds { at + length (encode_segment (meant alleles.reference.now ∷ alternates (meant alleles.alt.now))) ≤ length out.old }
    ensures value { result ≡ at + length (encode_segment (meant alleles.entry.reference.now ∷ alternates (meant alleles.entry.alt.now))) }
    ensures out_after { out.new ≡ over out.old at
        (encode_segment (meant alleles.entry.reference.now ∷ alternates (meant alleles.entry.alt.now))) }
{
    let reference = alleles.reference;
    let alt = alleles.alt;
    let start = at + FIRST_VARIANT;
    let next = after_variant(start, reference.len());
    if is_none(alt) {
        put_variants(1, &mut *out, at);
        put_variant(reference, &mut *out, start);
        return next;
    }
    let others = count(alt, COMMA);
    put_variants(1 + others, &mut *out, at);
    put_variant(reference, &mut *out, start);
    put_alleles(alt, &mut *out, next)
}

// How far the text is put: the first base of the window that is not, the place in the buffer, and how many records are left.
#[derive(Clone, Copy)]
pub struct Put {
    pub base: usize,
    pub at: usize,
    pub left: usize,
}

// What one line adds.
fn put_line(line: &[u8], window: Window, put: Put, out: &mut [u8]) -> Put
    requires placing { Placing (meant window.bases.now) window.first put.base put.left line.now }
    requires line_in_bounds { put.at + length (bytes_of encode_segment (line_text (meant window.bases.now) window.first put.base line.now))
        ≤ length out.old }
    ensures left_value { (result.left ≡ line_left (meant window.entry.bases.now) window.entry.first put.left line.now)
        × (result.base ≡ line_base (meant window.entry.bases.now) window.entry.first put.base line.now)
        × (result.at ≡ put.at + length (bytes_of encode_segment
        (line_text (meant window.entry.bases.now) window.entry.first put.base line.now))) }
    ensures out_after { out.new ≡ over out.old put.at
        (bytes_of encode_segment (line_text (meant window.entry.bases.now) window.entry.first put.base line.now)) }
{
    if is_comment(line) {
        return put;
    }
    let Some(place) = position(field(line, 1)) else {
        return put;
    };
    let reference = field(line, 3);
    let end = behind(place, reference.len());
    if window.is_outside(place, end) {
        return put;
    }
    let bases = window.bases;
    let start = place - window.first;
    let next = put_gap(&bases[put.base..start], &mut *out, put.at);
    let alleles = Alleles {
        reference,
        alt: field(line, 4),
    };
    let last = put_record(alleles, &mut *out, next);
    Put {
        base: end - window.first,
        at: last,
        left: put.left - 1,
    }
}

// The whole text of a window, as it was gathered: the lines from its start on hold its records; none after the last of these is looked at.
pub fn put_text(file: &[u8], window: Window, gathered: Gathered, out: &mut [u8])
    requires { Readable (meant window.bases.now) window.first file.now gathered.start gathered.kept gathered.needed.segments
        (length out.old) }
    ensures { out.new ≡ over out.old 0
        (encode (window_text (meant window.entry.bases.now) window.entry.first file.now)) }
{
    let needed = gathered.needed;
    put_segments(needed.segments, &mut *out);
    let mut put = Put {
        base: 0,
        at: FIRST_SEGMENT,
        left: gathered.kept,
    };
    let mut at = gathered.start;
    // Goes from line to line, as long as records are left: no count that is known before.
    while 0 < put.left {
        let end = far_end(file, LINE_FEED, at);
        put = put_line(&file[at..end], window, put, &mut *out);
        at = next_line(file, end);
    }
    let bases = window.bases;
    put_gap(&bases[put.base..], &mut *out, put.at);
}
