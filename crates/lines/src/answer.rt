// The lines of what a search answers.
ghost use Rattle.lines.specs.Puts.{Put};
ghost use Rattle.lines.specs.Answer.{marked_from, end_lines, first_line, text_lines, refusal_line, lines_of};

use crate::input::{pattern_in, stretch_in};
use crate::put::{put_bytes, put_line, put_number};
use crate::strands::{Strands, search_on};
use search::Searched;
use text::{Refusal, limits};

// The most bytes of an answer's lines: ten for each `end` line of the most segments, and 49 for the four other lines.
pub const MOST_BYTES: usize = 10 * limits::MOST_IN_STRETCH + 49;

// A refusal: its number and its place.
pub fn put_refusal(wrong: Refusal, out: &mut [u8], at: usize) -> usize
    ensures { Put out.old at (refusal_line wrong.number wrong.place) out.new result }
{
    let number = put_bytes(b"refused ", &mut *out, at);
    let end = put_number(wrong.number, &mut *out, number);
    put_line(b" at ", wrong.place as u64, &mut *out, end)
}

// Each marked segment, in rising order.
fn put_ends(marks: &[u8], out: &mut [u8], at: usize) -> usize
    ensures { Put out.old at (end_lines (marked_from 0 marks.now)) out.new result }
{
    let mut next = at;
    for (k, mark) in marks.iter().enumerate() {
        if *mark == 1 {
            next = put_line(b"end ", k as u64, &mut *out, next);
        }
    }
    next
}

// The first marked segment.
fn put_first(marks: &[u8], out: &mut [u8], at: usize) -> usize
    ensures { Put out.old at (first_line (marked_from 0 marks.now)) out.new result }
{
    match marks.iter().position(|mark| *mark == 1) {
        Some(j) => put_line(b"first ", j as u64, &mut *out, at),
        None => put_bytes(b"first none\n", &mut *out, at),
    }
}

// A sound stretch: its segment count, its size, the number of marked segments, each of them, and the first.
fn put_text(segments: usize, size: usize, ends: usize, marks: &[u8], out: &mut [u8]) -> usize
    ensures { Put out.old 0
        (text_lines (record { segments = segments; size = size; ends = ends }) marks.now) out.new result }
{
    let one = put_line(b"segments ", segments as u64, &mut *out, 0);
    let two = put_line(b"size ", size as u64, &mut *out, one);
    let three = put_line(b"ends ", ends as u64, &mut *out, two);
    let four = put_ends(marks, &mut *out, three);
    put_first(marks, &mut *out, four)
}

// Searches an input's pattern in its stretch on these strands, and puts the lines of the answer in front of the buffer. The place
// after them.
pub fn screened(strands: Strands, input: &[u8], out: &mut [u8]) -> usize
    ensures { Put out.old 0 (lines_of strands input.now) out.new result }
{
    let mut marks = [0u8; limits::MOST_IN_STRETCH];
    let pattern = pattern_in(input);
    let stretch = stretch_in(input);
    match search_on(strands, pattern, stretch, &mut marks) {
        Searched::Refused(wrong) => put_refusal(wrong, &mut *out, 0),
        Searched::Marked {
            segments,
            size,
            ends,
        } => put_text(segments, size, ends, &marks[..segments], &mut *out),
    }
}
