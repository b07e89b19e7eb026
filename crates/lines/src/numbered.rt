// Names of the files of a text: its name, a point and five digits, so that a shell lists them in order.
ghost use Rattle.std.specs.Prelude.{◌≡◌, ◌%◌};
ghost use Rattle.lines.specs.Decimal.{digit, is_numbered, numbered};
ghost use Rattle.lines.specs.Puts.{Put};

use crate::put::put_bytes;

// The most that five digits count.
const MOST: u64 = 99999;

// Whether five digits write a number, so that its name is no other's.
pub fn is_numbered(number: u64) -> bool
    ensures { result ≡ is_numbered number }
{
    number <= MOST
}

// A digit of a number: the lowest.
fn last_digit(number: u64) -> u8
    ensures { result ≡ digit (number % 10) }
{
    48 + (number % 10) as u8
}

// The name of file `number` of a text: of a greater number than five digits write, the last five.
pub fn put_numbered(name: &[u8], number: u64, out: &mut [u8], at: usize) -> usize
    ensures { Put out.old at (numbered name.now number) out.new result }
{
    let ending = [
        b'.',
        last_digit(number / 10000),
        last_digit(number / 1000),
        last_digit(number / 100),
        last_digit(number / 10),
        last_digit(number),
    ];
    let from = put_bytes(name, &mut *out, at);
    put_bytes(&ending, &mut *out, from)
}
