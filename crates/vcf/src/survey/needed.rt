// What the text needs before any of it is written: its bytes (refusal 4) and its first repeated variant (refusal 8). One that is too long
// is no more counted; one with a repeated variant is, since 4 comes before 8.
ghost use Rattle.std.specs.Prelude.{◌≡◌, ◌≤◌, [], ◌∷◌, Ok, IfOk, take};
ghost use Rattle.text.specs.Letter.{meant};
ghost use Rattle.layout.specs.Reading.{among};
ghost use Rattle.vcf.specs.Pieces.{pieces};
ghost use Rattle.vcf.specs.Records.{alternates};
ghost use Rattle.layout.specs.Bytes.{greatest_stretch};
ghost use Rattle.vcf.specs.Tallies.{nothing, counted, grown, opened, tallied, spaced, tally_in, Sane};

use crate::records::pieces::{COMMA, end_of};
use crate::records::record::{Alleles, is_none};
use layout::{FIRST_LETTER, FIRST_SEGMENT, FIRST_VARIANT};
use text::compare::alike;
use text::{Refusal, limits, refusal};

// What a text needs so far: its bytes, how many segments it has, and how many variants, or the refusal of its first repeated one.
// That it is sane is asked in clauses: as a ghost field, each definition of specs/ that makes one would have to prove it.
#[derive(Clone, Copy)]
pub struct Needed {
    pub bytes: usize,
    pub segments: usize,
    pub variants: Result<usize, Refusal>,
}

// How many variants there are with one more, which is repeated or not.
fn counted(variants: Result<usize, Refusal>, again: bool) -> Result<usize, Refusal>
    requires { IfOk variants (λ v. v ≤ greatest_stretch) }
    ensures { result ≡ counted variants again }
{
    let number = variants?;
    if again {
        return Err(Refusal {
            number: refusal::REPEATED,
            place: number,
        });
    }
    Ok(number + 1)
}

impl Needed {
    // No segment: a segment count alone.
    pub fn nothing() -> Needed
        ensures { Ok result ≡ nothing }
    {
        Needed {
            bytes: FIRST_SEGMENT,
            segments: 0,
            variants: Ok(0),
        }
    }

    // With that many bytes more.
    fn grown(self, more: usize) -> Result<Needed, Refusal>
        requires { Sane (Ok self) }
        ensures { result ≡ grown (Ok self) more }
    {
        let bytes = self.bytes;
        if limits::GREATEST_STRETCH - bytes < more {
            return Err(Refusal {
                number: refusal::STRETCH_LONG,
                place: 0,
            });
        }
        Ok(Needed {
            bytes: bytes + more,
            ..self
        })
    }

    // With one segment more: its variant count.
    fn open(self) -> Result<Needed, Refusal>
        requires { Sane (Ok self) }
        ensures { result ≡ opened (Ok self) }
    {
        let needed = self.grown(FIRST_VARIANT)?;
        Ok(Needed {
            segments: needed.segments + 1,
            ..needed
        })
    }

    // With one variant more, repeated or not: its length, then its letters.
    fn variant(self, letters: usize, again: bool) -> Result<Needed, Refusal>
        requires { Sane (Ok self) }
        ensures { result ≡ tallied (Ok self) letters again }
    {
        let begun = self.grown(FIRST_LETTER)?;
        let needed = begun.grown(letters)?;
        Ok(Needed {
            variants: counted(needed.variants, again),
            ..needed
        })
    }

    // With that many bases as a segment of one variant; none where there are none.
    pub fn gap(self, bases: usize) -> Result<Needed, Refusal>
        requires { Sane (Ok self) }
        ensures { result ≡ spaced (Ok self) bases }
    {
        if bases == 0 {
            return Ok(self);
        }
        let begun = self.open()?;
        begun.variant(bases, false)
    }

    // With the alleles of ALT after REF.
    fn alternates(self, alleles: Alleles) -> Result<Needed, Refusal>
        requires { Sane (Ok self) }
        ensures { result ≡ tally_in (Ok self) (meant alleles.entry.reference.now ∷ []) (pieces 0x2C (meant alleles.entry.alt.now)) }
    {
        let alt = alleles.alt;
        let mut needed = self;
        let mut from = 0;
        let mut k = 0;
        // Goes from comma to comma, and takes what follows the last one too.
        loop {
            let end = end_of(alt, COMMA, from);
            let allele = &alt[from..end];
            let again = repeated(alleles, k, allele);
            needed = needed.variant(allele.len(), again)?;
            if end == alt.len() {
                return Ok(needed);
            }
            from = end + 1;
            k += 1;
        }
    }

    // With the segment of a record.
    pub fn record(self, alleles: Alleles) -> Result<Needed, Refusal>
        requires { Sane (Ok self) }
        ensures { result ≡ tally_in (opened (Ok self)) [] (meant alleles.entry.reference.now ∷ alternates (meant alleles.entry.alt.now)) }
    {
        let begun = self.open()?;
        let first = begun.variant(alleles.reference.len(), false)?;
        if is_none(alleles.alt) {
            return Ok(first);
        }
        first.alternates(alleles)
    }
}

// Whether an allele is REF, or one of the first k of ALT.
fn repeated(alleles: Alleles, k: usize, allele: &[u8]) -> bool
    ensures { result ≡ among (meant allele.now)
        (meant alleles.entry.reference.now ∷ take k (pieces 0x2C (meant alleles.entry.alt.now))) }
{
    if alike(allele, alleles.reference) {
        return true;
    }
    let alt = alleles.alt;
    let mut from = 0;
    for _i in 0..k {
        let end = end_of(alt, COMMA, from);
        if alike(allele, &alt[from..end]) {
            return true;
        }
        if end == alt.len() {
            return false;
        }
        from = end + 1;
    }
    false
}
