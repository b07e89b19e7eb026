// Bytes cut at marks: the lines of a file, the fields of a line, the alleles of a field.
ghost use Rattle.std.specs.Prelude.{◌≡◌, [], ◌≤◌, ltb, length, get_or};
ghost use Rattle.text.specs.Letter.{every, first_not};
ghost use Rattle.vcf.specs.Pieces.{pieces, other, next_line, Skips, Ends};

pub const LINE_FEED: u8 = 10;

pub const TAB: u8 = 9;

pub const COMMA: u8 = 44;
// The bytes that are looked at together.
const BLOCK: usize = 64;

// The place of the first byte `mark`; the length where there is none.
fn find(s: &[u8], mark: u8) -> usize
    ensures { result ≡ first_not (other mark) s.now }
{
    for (i, byte) in s.iter().enumerate() {
        if *byte == mark {
            return i;
        }
    }
    s.len()
}

// The place of the first byte `mark` from `from` on; the length where there is none, and `from` where it lies after the bytes.
pub fn end_of(s: &[u8], mark: u8, from: usize) -> usize
    ensures { Ends mark s.now from result }
{
    if s.len() < from {
        return from;
    }
    let skipped = find(&s[from..], mark);
    from + skipped
}

// Whether no byte of a part is `mark`. Every byte is looked at, so that the compiler looks at many at once.
fn is_clear(part: &[u8], mark: u8) -> bool
    ensures { result ≡ every (other mark) part.now }
{
    let mut found = false;
    for byte in part {
        found |= *byte == mark;
    }
    !found
}

// A place from `from` on before which no byte `mark` stands: blocks that have none are passed.
fn passed(s: &[u8], mark: u8, from: usize) -> usize
    requires { from ≤ length s.now }
    ensures { Skips mark s.now from result }
{
    let mut at = from;
    let mut left = s.len() - from;
    // Goes by blocks, and stays at the last that is short.
    while BLOCK <= left {
        let end = at + BLOCK;
        if !is_clear(&s[at..end], mark) {
            return at;
        }
        at = end;
        left -= BLOCK;
    }
    at
}

// The same place as `end_of` finds, for one that may be far: the end of a line.
pub fn far_end(s: &[u8], mark: u8, from: usize) -> usize
    ensures { Ends mark s.now from result }
{
    if s.len() < from {
        return from;
    }
    let near = passed(s, mark, from);
    end_of(s, mark, near)
}

// Piece number k of those between the marks; an empty one after the last.
pub fn piece(s: &[u8], mark: u8, k: usize) -> &[u8]
    ensures { result.now ≡ get_or (pieces mark s.now) k [] }
{
    let mut from = 0;
    for _i in 0..k {
        let end = end_of(s, mark, from);
        if end == s.len() {
            return &s[end..];
        }
        from = end + 1;
    }
    let end = end_of(s, mark, from);
    &s[from..end]
}

// Whether there are more than n pieces.
pub fn more_than(s: &[u8], mark: u8, n: usize) -> bool
    ensures { result ≡ ltb n (length (pieces mark s.now)) }
{
    let mut from = 0;
    for _i in 0..n {
        let end = end_of(s, mark, from);
        if end == s.len() {
            return false;
        }
        from = end + 1;
    }
    true
}

// The place after a line that ends at `end`: its line feed goes.
#[tactic(auto, unfolding(crate::specs::Pieces::next_line))]
pub fn next_line(file: &[u8], end: usize) -> usize
    ensures { result ≡ next_line file.now end }
{
    if end < file.len() {
        return end + 1;
    }
    end
}
