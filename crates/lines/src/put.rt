// Bytes, numbers and lines, put into a buffer from a place on: as many bytes as there is room for. What is put right after is then
// what would have been put in one piece, so that a caller that lends enough need not ask in between. Each call tells the place
// after what it has put.
ghost use Rattle.lines.specs.Decimal.{digits, line};
ghost use Rattle.lines.specs.Puts.{Put};

use itoa::Buffer;

// Bytes as they are.
// Stays a call with a buffer and a place, as those below: their promise, `Put`, speaks of both, and no memory is asked for.
pub fn put_bytes(bytes: &[u8], out: &mut [u8], at: usize) -> usize
    ensures { Put out.old at bytes.now out.new result }
{
    if out.len() < at {
        return at;
    }
    let n = bytes.len().min(out.len() - at);
    out[at..at + n].copy_from_slice(&bytes[..n]);
    at + n
}

// A number: its decimal digits.
pub fn put_number(number: u64, out: &mut [u8], at: usize) -> usize
    ensures { Put out.old at (digits number) out.new result }
{
    let mut spelt = Buffer::new();
    put_bytes(spelt.format(number).as_bytes(), &mut *out, at)
}

// A line: a word, a number, and the line's end.
pub fn put_line(word: &[u8], number: u64, out: &mut [u8], at: usize) -> usize
    ensures { Put out.old at (line word.now number) out.new result }
{
    let from = put_bytes(word, &mut *out, at);
    let end = put_number(number, &mut *out, from);
    put_bytes(b"\n", &mut *out, end)
}
