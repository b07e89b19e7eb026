// A record by itself: where it stands, and how many bytes its segment takes. Nothing is built to know it.
ghost use Rattle.std.specs.Prelude.{◌≡◌};
ghost use Rattle.text.specs.Refusal.{outcome};
ghost use Rattle.vcf.specs.Measures.{measuring};

use crate::records::position::position;
use crate::records::record::{Alleles, field, sound};
use crate::records::window::Window;
use crate::survey::Needed;
use layout::FIRST_SEGMENT;
use text::letter::first_wrong;
use text::{Refusal, refusal};

// The record's position, how many bases its REF has, and the bytes of its segment.
#[derive(Clone, Copy)]
pub struct Measured {
    pub position: usize,
    pub bases: usize,
    pub bytes: usize,
}

// The record that a line states, of the chromosome of that name: refusals 28, 7, 19, 4 and 8, as `build` has them of a window of its
// REF alone.
pub fn measure(line: &[u8], name: &[u8]) -> Result<Measured, Refusal>
    ensures { outcome result ≡ measuring name.now line.now }
{
    let reference = field(line, 3);
    let Some(place) = position(field(line, 1)) else {
        return Err(Refusal {
            number: refusal::WINDOW_PLACE,
            place: 0,
        });
    };
    let window = Window {
        bases: reference,
        first: place,
    };
    if !window.is_placed() {
        return Err(Refusal {
            number: refusal::WINDOW_PLACE,
            place: 0,
        });
    }
    let wrong = first_wrong(reference);
    let bases = reference.len();
    if wrong < bases {
        return Err(Refusal {
            number: refusal::WRONG_LETTER,
            place: wrong,
        });
    }
    if sound(line, name).is_none() {
        return Err(Refusal {
            number: refusal::RECORD_WRONG,
            place: 0,
        });
    }
    let nothing = Needed::nothing();
    let needed = nothing.record(Alleles {
        reference,
        alt: field(line, 4),
    })?;
    needed.variants?;
    Ok(Measured {
        position: place,
        bases,
        bytes: needed.bytes - FIRST_SEGMENT,
    })
}
