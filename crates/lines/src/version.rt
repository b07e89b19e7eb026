// Which version of the programs speaks.
ghost use Rattle.lines.specs.Puts.{Put};
ghost use Rattle.lines.specs.Version.{version};

use crate::put::put_bytes;

// The name of the release, as the file VERSION at the top has it.
pub fn put_version(out: &mut [u8], at: usize) -> usize
    ensures { Put out.old at version out.new result }
{
    put_bytes(b"cerantuh 0.9.0", &mut *out, at)
}
