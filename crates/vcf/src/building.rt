// The stretch of a window, made from a reference and a file in Variant Call Format 4. Two passes over the file: the first checks
// and tallies, the second writes, so that a refused call changes nothing.
ghost use Rattle.std.specs.Prelude.{◌≡◌, length};
ghost use Rattle.layout.specs.Encoding.{encode};
ghost use Rattle.stretch.specs.Answers.{told_written};
ghost use Rattle.writer.specs.Answers.{written};
ghost use Rattle.layout.specs.Bytes.{left_by};
ghost use Rattle.vcf.specs.Building.{building};

use crate::put::put_text;
use crate::records::window::Window;
use crate::survey::survey;
use stretch::Written;
use text::{Refusal, refusal};

// Writes the stretch of the window whose first base stands at position `first` of the chromosome of that name: refusals 28, 18, 7,
// 19, 4, 8 and 15, asked in this order.
pub fn build(file: &[u8], window: &[u8], first: usize, name: &[u8], out: &mut [u8]) -> Written
    ensures answer { told_written result ≡ written
        (building file.now window.now first name.now (length out.old)) }
    ensures buffer { out.new ≡ left_by encode
        (building file.now window.now first name.now (length out.old))
        out.old }
{
    let window = Window {
        bases: window,
        first,
    };
    match survey(file, window, name) {
        Err(refusal) => Written::Refused(refusal),
        Ok(gathered) => {
            let needed = gathered.needed;
            if out.len() < needed.bytes {
                return Written::Refused(Refusal {
                    number: refusal::OUTPUT_SHORT,
                    place: 0,
                });
            }
            put_text(file, window, gathered, &mut *out);
            Written::Bytes(needed.bytes)
        }
    }
}
