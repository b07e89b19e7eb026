// What a night comes to, and the line that says it.
ghost use Rattle.std.specs.Prelude.{◌≡◌};
ghost use Rattle.lines.specs.Puts.{Put};
ghost use Rattle.desk_verdict.specs.Said.{Fits};
ghost use Rattle.desk_night.specs.Ending.{is_left, vouched, found, ending, verdict_line};

use crate::night::Night;
use crate::standings::some_end;
use crate::trouble::Trouble;
use lines::put_bytes;
use manifest::{Line, counts_stand, next_stretch};

// The text may go out; or a sequence of the list ends in it.
#[derive(Clone, Copy)]
pub enum Verdict {
    Clear,
    Held,
}

// Whether the manifest names a stretch from a place on.
#[tactic(auto, unfolding(crate::specs::Ending::is_left))]
fn is_left(manifest: &[u8], at: usize) -> bool
    ensures { result ≡ is_left manifest.now at }
{
    matches!(
        next_stretch(manifest, at),
        Some(Line {
            said: Ok(Some(_)),
            next: _
        })
    )
}

// Whether the manifest vouches for the stretches that were handed in, if one is to.
#[tactic(auto, unfolding(crate::specs::Ending::vouched))]
fn vouched(night: Night, manifest: &[u8]) -> Result<(), Trouble>
    ensures { result ≡ vouched manifest.now night }
{
    if night.text.is_none() {
        return Ok(());
    }
    if is_left(manifest, night.at) {
        return Err(Trouble::Missing);
    }
    if !counts_stand(manifest, night.stretches, night.segments, night.bytes) {
        return Err(Trouble::Counts);
    }
    Ok(())
}

// What the sequences have come to.
#[tactic(auto, unfolding(crate::specs::Ending::found))]
fn found(night: Night) -> Verdict
    ensures { result ≡ found night }
{
    if some_end(&night.standings, night.count) {
        Verdict::Held
    } else {
        Verdict::Clear
    }
}

impl Night {
    // What the night comes to, after the last stretch; or its trouble, with which that is not known.
    #[tactic(auto, unfolding(crate::specs::Ending::ending))]
    pub fn end(self, manifest: &[u8]) -> Result<Verdict, Trouble>
        ensures { result ≡ ending manifest.now self }
    {
        if let Some(trouble) = self.trouble {
            return Err(trouble);
        }
        if self.is_over() {
            return Ok(Verdict::Held);
        }
        vouched(self, manifest)?;
        Ok(found(self))
    }
}

// The line that says whether the text may go out. It may not where that is not known.
pub fn put_verdict(verdict: Result<Verdict, Trouble>, out: &mut [u8]) -> usize
    ensures put { Put out.old 0 (verdict_line verdict) out.new result }
    ensures fits { Fits result out.new }
{
    match verdict {
        Ok(Verdict::Clear) => put_bytes(b"clear\n", &mut *out, 0),
        _ => put_bytes(b"held\n", &mut *out, 0),
    }
}
