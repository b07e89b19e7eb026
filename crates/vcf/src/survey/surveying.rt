// What the text of a window needs before any of it is written: the checks of the call, in their order, up to the room.
ghost use Rattle.vcf.specs.Surveys.{Surveys};

use crate::records::heading::is_headed;
use crate::records::window::Window;
use crate::survey::scan::{Gathered, scan};
use text::letter::first_wrong;
use text::{Refusal, refusal};

// What a window of the chromosome of that name needs: refusals 28, 18, 7, 19, 4 and 8,
// asked in this order.
pub fn survey(file: &[u8], window: Window, name: &[u8]) -> Result<Gathered, Refusal>
    ensures { Surveys file.now window.entry.bases.now window.entry.first name.now result }
{
    if !window.is_placed() {
        return Err(Refusal {
            number: refusal::WINDOW_PLACE,
            place: 0,
        });
    }
    if !is_headed(file) {
        return Err(Refusal {
            number: refusal::FILE_HEADING,
            place: 0,
        });
    }
    let wrong = first_wrong(window.bases);
    if wrong < window.bases.len() {
        return Err(Refusal {
            number: refusal::WRONG_LETTER,
            place: wrong,
        });
    }
    let gathered = scan(file, window, name)?;
    let needed = gathered.needed;
    needed.variants?;
    Ok(gathered)
}
