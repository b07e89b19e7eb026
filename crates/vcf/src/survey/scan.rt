// The first pass: every line is checked (refusal 19), and what the text needs is tallied.
ghost use Rattle.std.specs.Prelude.{◌≡◌, true, cond, [], ◌∷◌, eqb};
ghost use Rattle.text.specs.Letter.{meant};
ghost use Rattle.vcf.specs.Records.{placed, alternates};
ghost use Rattle.vcf.specs.Tallies.{opened, spaced, tally_in, Sane};
ghost use Rattle.vcf.specs.Steps.{line_step, Reach, told_gathered, Starts, scanning};

use crate::records::pieces::{LINE_FEED, far_end, next_line};
use crate::records::record::{Alleles, field, is_comment, sound};
use crate::records::window::{Window, behind};
use crate::survey::needed::Needed;
use text::{Refusal, refusal};

// How far the lines have come: the position after the last record, the first base of the window after the last record in it,
// how many records are in it, and what the text so far needs, if it fits.
#[derive(Clone, Copy)]
pub struct Reached {
    pub from: usize,
    pub base: usize,
    pub kept: usize,
    pub needed: Result<Needed, Refusal>,
}

// With bases and then a record's segment more, if what was before fits.
fn with_record(
    needed: Result<Needed, Refusal>,
    bases: usize,
    alleles: Alleles,
) -> Result<Needed, Refusal>
    requires { Sane needed }
    ensures { result ≡ tally_in (opened (spaced needed bases)) [] (meant alleles.entry.reference.now ∷ alternates (meant alleles.entry.alt.now)) }
{
    let before = needed?.gap(bases)?;
    before.record(alleles)
}

impl Reached {
    // After one line more; none if it is wrong.
    fn line(self, line: &[u8], window: Window, name: &[u8]) -> Option<Reached>
        requires { Reach (meant window.bases.now) window.first self }
        ensures { result ≡ line_step name.now (meant window.entry.bases.now) window.entry.first self line.now }
    {
        if is_comment(line) {
            return Some(self);
        }
        let position = sound(line, name)?;
        if position < self.from {
            return None;
        }
        let reference = field(line, 3);
        let end = behind(position, reference.len());
        if window.is_outside(position, end) {
            return Some(Reached { from: end, ..self });
        }
        if !window.agrees(position, reference) {
            return None;
        }
        let bases = position - window.first - self.base;
        let alleles = Alleles {
            reference,
            alt: field(line, 4),
        };
        let needed = with_record(self.needed, bases, alleles);
        Some(Reached {
            from: end,
            base: end - window.first,
            kept: self.kept + 1,
            needed,
        })
    }
}

// What the whole text needs, from which place on the lines hold the records in the window, and how many these are.
#[derive(Clone, Copy)]
pub struct Gathered {
    pub needed: Needed,
    pub start: usize,
    pub kept: usize,
}

// Where the lines that matter start: as long as none of them held a record in the window, at the next one.
fn starting(kept: usize, start: usize, next: usize) -> usize
    ensures { result ≡ cond (eqb kept 0) next start }
{
    if kept == 0 {
        return next;
    }
    start
}

// All lines of the file, for a window that is placed: refusals 19 and 4.
pub fn scan(file: &[u8], window: Window, name: &[u8]) -> Result<Gathered, Refusal>
    requires { placed (meant window.bases.now) window.first ≡ true }
    ensures result_value { told_gathered result ≡ scanning name.now (meant window.entry.bases.now) window.entry.first file.now }
    ensures starts { Starts name.now (meant window.entry.bases.now) window.entry.first file.now result }
{
    let mut at = 0;
    let mut start = 0;
    let mut passed = 0;
    let mut reached = Reached {
        from: 0,
        base: 0,
        kept: 0,
        needed: Ok(Needed::nothing()),
    };
    // Goes from line to line, which end where `far_end` says.
    while at < file.len() {
        let end = far_end(file, LINE_FEED, at);
        let Some(next) = reached.line(&file[at..end], window, name) else {
            return Err(Refusal {
                number: refusal::RECORD_WRONG,
                place: passed + 1,
            });
        };
        reached = next;
        passed += 1;
        at = next_line(file, end);
        start = starting(reached.kept, start, at);
    }
    let before = reached.needed?;
    let needed = before.gap(window.bases.len() - reached.base)?;
    Ok(Gathered {
        needed,
        start,
        kept: reached.kept,
    })
}
