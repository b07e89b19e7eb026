// The lines that the desk prints, put into a buffer of a fixed size. Display writes text alone, and a file's name is any bytes.
ghost use Rattle.lines.specs.Puts.{Put};
ghost use Rattle.desk_verdict.specs.Said.{counted, named, hit_line, standing_line, refused_line};
ghost use Rattle.desk_verdict.specs.Said.{done_line, fault_words, Fits};

use crate::standing::Standing;
use crate::sum::plus;
use lines::{put_bytes, put_number};
use text::Refusal;

// A word and a number.
fn put_counted(word: &[u8], number: u64, out: &mut [u8], at: usize) -> usize
    ensures { Put out.old at (counted word.now number) out.new result }
{
    let next = put_bytes(word, &mut *out, at);
    put_number(number, &mut *out, next)
}

// A word, a file's name, and the line's end.
pub fn put_named(word: &[u8], name: &[u8], out: &mut [u8], at: usize) -> usize
    ensures { Put out.old at (named word.now name.now) out.new result }
{
    let next = put_bytes(word, &mut *out, at);
    let end = put_bytes(name, &mut *out, next);
    put_bytes(b"\n", &mut *out, end)
}

// A segment in which a sequence ends: its number in the text, with that many segments before its file, and its number in the file.
pub fn put_hit(label: u64, before: u64, segment: u64, name: &[u8], out: &mut [u8]) -> usize
    ensures put { Put out.old 0 (hit_line label before segment name.now) out.new result }
    ensures fits { Fits result out.new }
{
    let number = plus(before, segment);
    let one = put_number(label, &mut *out, 0);
    let two = put_counted(b" ends in segment ", number, &mut *out, one);
    let three = put_counted(b" of the text, segment ", segment, &mut *out, two);
    put_named(b" of ", name, &mut *out, three)
}

// Where a sequence stands after the whole text: clear, or in how many of the segments it ends.
pub fn put_standing(label: u64, standing: Standing, out: &mut [u8]) -> usize
    ensures put { Put out.old 0 (standing_line label standing) out.new result }
    ensures fits { Fits result out.new }
{
    let one = put_number(label, &mut *out, 0);
    if standing.ends == 0 {
        return put_bytes(b" clear\n", &mut *out, one);
    }
    let two = put_counted(b" held, ", standing.ends, &mut *out, one);
    let three = put_counted(b" of ", standing.segments, &mut *out, two);
    put_bytes(b" segments\n", &mut *out, three)
}

// A file that is refused.
pub fn put_refused(wrong: Refusal, name: &[u8], out: &mut [u8]) -> usize
    ensures put { Put out.old 0 (refused_line wrong.number wrong.place name.now) out.new result }
    ensures fits { Fits result out.new }
{
    let one = put_counted(b"refused ", wrong.number, &mut *out, 0);
    let two = put_counted(b" at ", wrong.place as u64, &mut *out, one);
    put_named(b" in ", name, &mut *out, two)
}

// How many of the files are done.
pub fn put_done(done: u64, all: u64, out: &mut [u8]) -> usize
    ensures put { Put out.old 0 (done_line done all) out.new result }
    ensures fits { Fits result out.new }
{
    let one = put_number(done, &mut *out, 0);
    let two = put_counted(b" of ", all, &mut *out, one);
    put_bytes(b" files\n", &mut *out, two)
}

// The words in front of what is wrong with a line of the list.
pub fn put_fault(line: u64, out: &mut [u8]) -> usize
    ensures put { Put out.old 0 (fault_words line) out.new result }
    ensures fits { Fits result out.new }
{
    let one = put_counted(b"line ", line, &mut *out, 0);
    put_bytes(b" of the list: ", &mut *out, one)
}
