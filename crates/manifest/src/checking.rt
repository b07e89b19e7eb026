// What a manifest says of itself and of its stretches: whether it is whole and right, whether a stretch is the one that it names, and
// whether its counts are these.
ghost use Rattle.std.specs.Prelude.{◌≡◌};
ghost use Rattle.manifest.specs.Check.{sealed, counted, listed_of, checked_of, vouches, counts_stand};

use crate::putting::{HEAD, put_counts, put_digest, put_seal};
use crate::reading::next_stretch;
use digest::digest;
use lines::put_bytes;
use text::compare::{prefix, same};

// What is wrong with a manifest, asked in this order: it does not begin with the first line; its last line is not the digest of the bytes
// before; a line is wrong; or it has no stretch.
#[derive(Clone, Copy)]
pub enum Unsound {
    Foreign,
    Altered,
    Wrong,
    Empty,
}

// The bytes of the last line.
const SEAL: usize = 74;

// Whether the last line is the digest of the bytes before it.
fn is_sealed(manifest: &[u8]) -> bool
    ensures { result ≡ sealed manifest.now }
{
    if manifest.len() < SEAL {
        return false;
    }
    let from = manifest.len() - SEAL;
    let mut line = [0u8; SEAL];
    put_seal(digest(&manifest[..from]), &mut line, 0);
    same(&manifest[from..], &line)
}

// What right lines are, by the number of their stretches.
#[tactic(auto, unfolding(crate::specs::Check::counted))]
fn counted(count: usize) -> Result<usize, Unsound>
    ensures { result ≡ counted count }
{
    if count == 0 {
        return Err(Unsound::Empty);
    }
    Ok(count)
}

// What the lines of a manifest are.
fn listed(manifest: &[u8]) -> Result<usize, Unsound>
    ensures { result ≡ listed_of manifest.now }
{
    let mut at = 0;
    let mut count = 0;
    while let Some(line) = next_stretch(manifest, at) {
        if line.said.is_err() {
            return Err(Unsound::Wrong);
        }
        count += 1;
        at = line.next;
    }
    counted(count)
}

// The number of the stretches of a manifest, if it is sound.
#[tactic(auto, unfolding(crate::specs::Check::checked_of))]
pub fn check(manifest: &[u8]) -> Result<usize, Unsound>
    ensures { result ≡ checked_of manifest.now }
{
    if !prefix(&HEAD, manifest) {
        return Err(Unsound::Foreign);
    }
    if !is_sealed(manifest) {
        return Err(Unsound::Altered);
    }
    listed(manifest)
}

// Whether the line whose name begins at `start` has the digest of this stretch.
pub fn vouches(manifest: &[u8], start: usize, stretch: &[u8]) -> bool
    ensures { result ≡ vouches manifest.now start stretch.now }
{
    if start < 66 {
        return false;
    }
    let end = start - 2;
    if manifest.len() < end {
        return false;
    }
    let from = start - 66;
    let mut digits = [0u8; 64];
    put_digest(digest(stretch), &mut digits, 0);
    same(&manifest[from..end], &digits)
}

// Whether the last line but one has these counts.
pub fn counts_stand(manifest: &[u8], stretches: u64, segments: u64, bytes: u64) -> bool
    ensures { result ≡ counts_stand manifest.now stretches segments bytes }
{
    if manifest.len() < SEAL {
        return false;
    }
    let end = manifest.len() - SEAL;
    let mut line = [0u8; 93];
    let from = put_bytes(b"\n", &mut line, 0);
    let size = put_counts(stretches, segments, bytes, &mut line, from);
    if end < size {
        return false;
    }
    let start = end - size;
    same(&line[..size], &manifest[start..end])
}
