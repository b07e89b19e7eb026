// The calls over a list of records.
ghost use Rattle.std.specs.Prelude.{◌≡◌, leb, length, cond};
ghost use Rattle.text.specs.Refusal.{ok, demand, outcome};
ghost use Rattle.layout.specs.Bytes.{left_by};
ghost use Rattle.watch.specs.Watching.{most_watched, all_sound, first_wrong, listing, watching, told_found, told_seen};
ghost use Rattle.watch.specs.Watching.{marking, told_listed, marks_of, accepted};

use crate::answers::{Found, Listed, Seen};
use crate::sight::sight;
use crate::watched::Watched;
use stretch::{Checked, check};
use text::{Refusal, limits, refusal};

// The first record whose pattern is refused.
fn wrong(list: &[Watched]) -> Option<usize>
    ensures { result ≡ cond (all_sound list.now) None (Some (first_wrong list.now)) }
{
    list.iter().position(|item| !item.is_sound())
}

// Refusals 20 and 21.
fn check_list(list: &[Watched]) -> Result<(), Refusal>
    ensures { outcome result ≡ demand (leb (length list.now) most_watched) 20 0
        (demand (all_sound list.now) 21 (first_wrong list.now) (ok tt)) }
{
    if limits::MOST_WATCHED < list.len() {
        return Err(Refusal {
            number: refusal::LIST_LONG,
            place: 0,
        });
    }
    match wrong(list) {
        Some(place) => Err(Refusal {
            number: refusal::WATCHED_WRONG,
            place,
        }),
        None => Ok(()),
    }
}

// Those, then those of the stretch.
fn check_all(list: &[Watched], stretch: &[u8]) -> Result<(), Refusal>
    ensures { outcome result ≡ accepted (listing list.now stretch.now) }
{
    check_list(list)?;
    // Stays a match: the name and shape of what `check` answers are fixed.
    match check(stretch) {
        Checked::Sound {
            segments: _,
            size: _,
        } => Ok(()),
        Checked::Refused(wrong) => Err(wrong),
    }
}

// The first record that ends anywhere in the stretch.
fn first_seen(list: &[Watched], stretch: &[u8]) -> Result<Option<Seen>, Refusal>
    ensures { told_seen result ≡ watching list.now stretch.now }
{
    check_all(list, stretch)?;
    for item in list {
        if let Some(segment) = sight(stretch, item) {
            return Ok(Some(Seen {
                label: item.label,
                segment,
            }));
        }
    }
    Ok(None)
}

// The label and the first ending segment of the first record that ends anywhere in the stretch: refusals 20 and 21, then those of the
// stretch.
pub fn first(list: &[Watched], stretch: &[u8]) -> Found
    ensures { told_found result ≡ watching list.now stretch.now }
{
    Found::from(first_seen(list, stretch))
}

// Writes the marks of the records.
fn put_marks(list: &[Watched], stretch: &[u8], marks: &mut [u8]) -> Result<(), Refusal>
    ensures result_value { outcome result ≡ accepted (marking list.now stretch.now (length marks.old)) }
    ensures marks_after { marks.new ≡ left_by (marks_of list.now) (marking list.now stretch.now (length marks.old)) marks.old }
{
    check_all(list, stretch)?;
    if marks.len() < list.len() {
        return Err(Refusal {
            number: refusal::BUFFER_SHORT,
            place: 0,
        });
    }
    for (i, item) in list.iter().enumerate() {
        marks[i] = sight(stretch, item).is_some() as u8;
    }
    Ok(())
}

// Writes 1 or 0 for each record, 1 where it ends anywhere in the stretch: refusals 20 and 21, those of the stretch, then 10. Further
// bytes stay, and a refusal changes nothing.
pub fn mark(list: &[Watched], stretch: &[u8], marks: &mut [u8]) -> Listed
    ensures { (told_listed result ≡ accepted (marking list.now stretch.now (length marks.old)))
        × (marks.new ≡ left_by (marks_of list.now)
        (marking list.now stretch.now (length marks.old)) marks.old) }
{
    Listed::from(put_marks(list, stretch, marks))
}
