// The lines of a list.
ghost use Rattle.std.specs.Prelude.{◌≡◌, ◌≤◌, length};
ghost use Rattle.desk_list.specs.declared.reading.Fault.TheVariants.{Sequence};
ghost use Rattle.desk_list.specs.Line.{ends_at, sequence_of, words_of, entry_of, close_of, behind, line_of, Inside, Onward};

use crate::classes::{is_blank, is_digit, is_in_line, is_plain, is_word, past};
use crate::decimal::told;
use text::Refusal;
use text::pattern::check;

// What is wrong with a line.
#[derive(Clone, Copy)]
pub enum Fault {
    // A byte is neither printable ASCII nor a tab: its place in the line, from 0.
    Byte(usize),
    // It does not begin with a number.
    NoLabel,
    // The number is over 64 bits.
    LargeLabel,
    // No sequence stands after the number, parted from it by a blank.
    NoSequence,
    // The sequence is refused as a pattern: 2 or 3.
    Sequence(Refusal),
    // Something stands after the sequence.
    More,
}

impl From<Refusal> for Fault {
    ghost from_gives = { λ refusal fault. fault ≡ Sequence refusal };

    fn from(refusal: Refusal) -> Fault {
        Fault::Sequence(refusal)
    }
}

// A withheld sequence: its label, and where it stands.
#[derive(Clone, Copy)]
pub struct Withheld {
    pub label: u64,
    pub start: usize,
    pub end: usize,
}

// A line of a list: the sequence that it says, if it says one, or what is wrong with it; and where the next line begins.
#[derive(Clone, Copy)]
pub struct Line {
    pub said: Result<Option<Withheld>, Fault>,
    pub next: usize,
}

// Whether nothing stands from a place on: a line ends there, or a comment begins.
#[tactic(auto, unfolding(crate::specs::Line::ends_at))]
fn ends_at(line: &[u8], at: usize) -> bool
    ensures { result ≡ ends_at line.now at }
{
    if line.len() <= at {
        return true;
    }
    line[at] == b'#'
}

// The sequence from `start` on, after its label.
fn sequence(line: &[u8], label: u64, start: usize) -> Result<Option<Withheld>, Fault>
    requires { start ≤ length line.now }
    ensures { (result ≡ sequence_of line.now label start) × Inside (length line.now) result }
{
    let end = past(is_word, line, start);
    check(&line[start..end])?;
    let rest = past(is_blank, line, end);
    if !ends_at(line, rest) {
        return Err(Fault::More);
    }
    Ok(Some(Withheld { label, start, end }))
}

// What a line of plain bytes says.
fn words(line: &[u8]) -> Result<Option<Withheld>, Fault>
    ensures { (result ≡ words_of line.now) × Inside (length line.now) result }
{
    let first = past(is_blank, line, 0);
    if ends_at(line, first) {
        return Ok(None);
    }
    let digits = past(is_digit, line, first);
    if digits == first {
        return Err(Fault::NoLabel);
    }
    let label = told(&line[first..digits]).ok_or(Fault::LargeLabel)?;
    let start = past(is_blank, line, digits);
    if start == digits {
        return Err(Fault::NoSequence);
    }
    if ends_at(line, start) {
        return Err(Fault::NoSequence);
    }
    sequence(line, label, start)
}

// What a line says, without its end. A byte that is not plain is wrong wherever it stands, in a comment too: it may look like another.
fn content(line: &[u8]) -> Result<Option<Withheld>, Fault>
    ensures { (result ≡ entry_of line.now) × Inside (length line.now) result }
{
    let plain = past(is_plain, line, 0);
    if plain < line.len() {
        return Err(Fault::Byte(plain));
    }
    words(line)
}

// Where the content of a line ends that begins at `at` and stops at `stop`: before the carriage return of its end, if it has one.
#[tactic(auto, unfolding(crate::specs::Line::close_of))]
fn close(list: &[u8], at: usize, stop: usize) -> usize
    ensures { result ≡ close_of list.now at stop }
{
    if list.len() <= stop {
        return stop;
    }
    if stop <= at {
        return stop;
    }
    if list[stop - 1] == 13 {
        return stop - 1;
    }
    stop
}

// Where the line after one that stops at `stop` begins: there is a line's end at most.
#[tactic(auto, unfolding(crate::specs::Line::behind))]
fn behind(list: &[u8], stop: usize) -> usize
    ensures { result ≡ behind list.now stop }
{
    if stop < list.len() {
        return stop + 1;
    }
    stop
}

// The line that begins at a place of a list; none at its end.
pub fn line_at(list: &[u8], at: usize) -> Option<Line>
    ensures value { result ≡ line_of list.now at }
    ensures onward { Onward at (length list.now) result }
{
    if list.len() <= at {
        return None;
    }
    let stop = past(is_in_line, list, at);
    let next = behind(list, stop);
    let end = close(list, at, stop);
    let said = match content(&list[at..end]) {
        Ok(Some(withheld)) => Ok(Some(Withheld {
            label: withheld.label,
            start: at + withheld.start,
            end: at + withheld.end,
        })),
        Ok(None) => Ok(None),
        Err(fault) => Err(fault),
    };
    Some(Line { said, next })
}
