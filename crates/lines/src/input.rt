// The parts of the program's input. Where it ends inside the pattern, the bytes there are the pattern, and the stretch is empty.
ghost use Rattle.std.specs.Prelude.{◌≡◌, ◌<◌};
ghost use Rattle.lines.specs.Input.{announced, pattern_in, stretch_in};

use layout::number::wide;
use text::limits;

// The bytes of an input that count: the pattern's length, the longest pattern that a byte can announce, and a stretch of one byte over
// the limit.
pub const MOST_READ: usize = 257 + limits::GREATEST_STRETCH;

// The pattern's length, as its byte says it; 0 where there is no input.
fn announced(input: &[u8]) -> usize
    ensures { (result ≡ announced input.now) × (result < 256) }
{
    if input.len() == 0 {
        return 0;
    }
    wide(input[0])
}

// The pattern.
pub fn pattern_in(input: &[u8]) -> &[u8]
    ensures { result.now ≡ pattern_in input.now }
{
    let end = 1 + announced(input);
    if input.len() == 0 {
        return input;
    }
    if input.len() < end {
        return &input[1..];
    }
    &input[1..end]
}

// The stretch.
pub fn stretch_in(input: &[u8]) -> &[u8]
    ensures { result.now ≡ stretch_in input.now }
{
    let start = 1 + announced(input);
    if input.len() < start {
        return &input[..0];
    }
    &input[start..]
}
