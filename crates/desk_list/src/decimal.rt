// Decimal numbers.
ghost use Rattle.std.specs.Prelude.{◌≡◌};
ghost use Rattle.desk_list.specs.Number.{number_of};

// The number that decimal digits tell, if 64 bits hold it.
pub fn told(digits: &[u8]) -> Option<u64>
    ensures { result ≡ number_of digits.now }
{
    let mut n: u64 = 0;
    for digit in digits {
        n = n.checked_mul(10)?.checked_add(u64::from(*digit % 16))?;
    }
    Some(n)
}
