// Positions: decimal digits, 1 to 2,147,483,647.
ghost use Rattle.std.specs.Prelude.{◌≡◌};
ghost use Rattle.vcf.specs.Records.{digit, position_of, stated};

use layout::number::wide;

pub const LAST: usize = 2147483647;

#[tactic(auto, unfolding(crate::specs::Records::digit))]
fn is_digit(byte: u8) -> bool
    ensures { result ≡ digit byte }
{
    b'0' <= byte && byte <= b'9'
}

// The position that a field states, if it states one.
pub fn position(field: &[u8]) -> Option<usize>
    ensures { result ≡ stated (position_of field.now) }
{
    let mut n = 0;
    for byte in field {
        if !is_digit(*byte) {
            return None;
        }
        n = n * 10 + (wide(*byte) - 48);
        if LAST < n {
            return None;
        }
    }
    if n == 0 {
        return None;
    }
    Some(n)
}
