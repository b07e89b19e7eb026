// Tests on strings: by bytes, the same and a beginning; by what the bytes mean, the same letters, a beginning and an end. Parts are passed
// as they stand, without copying.
ghost use Rattle.std.specs.Prelude.{◌≡◌, not, eqb};
ghost use Rattle.text.specs.Letter.{raised, meant};
ghost use Rattle.text.specs.Compare.{same, prefix, suffix, alike};

use crate::letter::is_letter;

// Whether a and b are the same bytes: the lengths first, then byte by byte.
pub fn same(a: &[u8], b: &[u8]) -> bool
    ensures { result ≡ same a.now b.now }
{
    a == b
}

// Whether s begins with p.
pub fn prefix(p: &[u8], s: &[u8]) -> bool
    ensures { result ≡ prefix p.now s.now }
{
    s.starts_with(p)
}

// Whether two bytes mean something else. Equal bytes need no second look, nor do bytes that differ by more than the bit of a letter's
// case.
pub(crate) fn differ(a: u8, b: u8) -> bool
    ensures { result ≡ not (eqb (raised a) (raised b)) }
{
    if a == b {
        return false;
    }
    if a | 32 != b | 32 {
        return true;
    }
    !is_letter(a)
}

// Whether a and b mean the same letters, whatever their case: the lengths first, then letter by letter.
pub fn alike(a: &[u8], b: &[u8]) -> bool
    ensures { result ≡ alike a.now b.now }
{
    if a.len() != b.len() {
        return false;
    }
    for (k, letter) in a.iter().enumerate() {
        if differ(*letter, b[k]) {
            return false;
        }
    }
    true
}

// Whether s begins with letters that mean those of p.
pub fn alike_prefix(p: &[u8], s: &[u8]) -> bool
    ensures { result ≡ prefix (meant p.now) (meant s.now) }
{
    let n = p.len();
    if s.len() < n {
        return false;
    }
    alike(p, &s[..n])
}

// Whether s ends with letters that mean those of p.
pub fn alike_suffix(p: &[u8], s: &[u8]) -> bool
    ensures { result ≡ suffix (meant p.now) (meant s.now) }
{
    if s.len() < p.len() {
        return false;
    }
    let start = s.len() - p.len();
    alike(p, &s[start..])
}
