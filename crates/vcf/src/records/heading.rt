// How a file in Variant Call Format 4 begins.
ghost use Rattle.std.specs.Prelude.{◌≡◌};
ghost use Rattle.text.specs.Compare.{prefix};
ghost use Rattle.vcf.specs.Records.{heading};

use text::compare::prefix;

pub const HEADING: [u8; 19] = *b"##fileformat=VCFv4.";

// Whether a file begins so.
pub fn is_headed(file: &[u8]) -> bool
    ensures { result ≡ prefix heading file.now }
{
    prefix(&HEADING, file)
}
