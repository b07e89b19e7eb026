// The lines of a manifest.
ghost use Rattle.std.specs.Prelude.{◌≡◌, length};
ghost use Rattle.manifest.specs.Line.{is_comment, is_entry, line_of, Onward};
ghost use Rattle.manifest.specs.Lines.{next_of};

use crate::classes::{is_hex_digit, is_name};
use text::compare::same;

// A stretch's line: its digest stands in the 64 bytes before `start - 2`, and its name from `start` to `end`.
#[derive(Clone, Copy)]
pub struct Stretch {
    pub start: usize,
    pub end: usize,
}

// A line is neither a comment nor a stretch's, or has no line feed at its end.
#[derive(Clone, Copy)]
pub struct Wrong;

// A line of a manifest: that of a stretch, or a comment, which says none; and where the next line begins.
#[derive(Clone, Copy)]
pub struct Line {
    pub said: Result<Option<Stretch>, Wrong>,
    pub next: usize,
}

// Whether a line is a comment.
#[tactic(auto, unfolding(crate::specs::Line::is_comment))]
fn is_comment(line: &[u8]) -> bool
    ensures { result ≡ is_comment line.now }
{
    if line.is_empty() {
        return false;
    }
    line[0] == b'#'
}

// Whether a line, without its end, is that of a stretch: 64 digits, two blanks, and a name.
fn is_entry(line: &[u8]) -> bool
    ensures { result ≡ is_entry line.now }
{
    if line.len() < 66 {
        return false;
    }
    if !line[..64].iter().all(|byte| is_hex_digit(*byte)) {
        return false;
    }
    if !same(&line[64..66], b"  ") {
        return false;
    }
    is_name(&line[66..])
}

// The line that begins at a place of a manifest; none at its end.
pub fn line_at(manifest: &[u8], at: usize) -> Option<Line>
    ensures value { result ≡ line_of manifest.now at }
    ensures onward { Onward at (length manifest.now) result }
{
    if manifest.len() <= at {
        return None;
    }
    let rest = &manifest[at..];
    let length = rest
        .iter()
        .position(|byte| *byte == b'\n')
        .unwrap_or(rest.len());
    let end = at + length;
    if manifest.len() <= end {
        return Some(Line {
            said: Err(Wrong),
            next: end,
        });
    }
    let next = end + 1;
    if is_comment(&manifest[at..end]) {
        return Some(Line {
            said: Ok(None),
            next,
        });
    }
    if is_entry(&manifest[at..end]) {
        let start = at + 66;
        return Some(Line {
            said: Ok(Some(Stretch { start, end })),
            next,
        });
    }
    Some(Line {
        said: Err(Wrong),
        next,
    })
}

// The first line from a place on that is no comment.
pub fn next_stretch(manifest: &[u8], at: usize) -> Option<Line>
    ensures value { result ≡ next_of manifest.now at }
    ensures onward { Onward at (length manifest.now) result }
{
    let mut from = at;
    while let Some(line) = line_at(manifest, from) {
        match line.said {
            Ok(Some(_)) => return Some(line),
            Ok(None) => from = line.next,
            Err(_) => return Some(line),
        }
    }
    None
}
