// A night: where each sequence of the list stands after the stretches so far, and what has come of them. The caller hands the same list
// and the same manifest in to each call; of neither is more kept than its digest.
ghost use Rattle.std.specs.Prelude.{◌≡◌};
ghost use Rattle.desk_night.specs.Night.{segments_of, begun_with, beginning, beginning_files};
ghost use Rattle.desk_night.specs.Night.{troubled, taken, place_of, overing, missing, is_over};

use crate::standings::all_end;
use crate::sweeping::sweep;
use crate::trouble::Trouble;
use desk_list::MOST;
use desk_verdict::{Standing, plus};
use digest::digest;
use layout::walk::stated;
use manifest::{Line, next_stretch, vouches};

// Where the sequences of the list stand and how many there are; the place in the manifest after the stretches so far; how many of these
// there are, and their segments and bytes; whether each sequence is searched to its first end only; the digests of the list and of the
// manifest, if one vouches for the stretches; and the first trouble, if there is one.
// The standings keep a count beside them: memory is fixed here.
#[derive(Clone, Copy)]
pub struct Night {
    pub standings: [Standing; MOST],
    pub count: usize,
    pub at: usize,
    pub stretches: u64,
    pub segments: u64,
    pub bytes: u64,
    pub first: bool,
    pub list: [u8; 32],
    pub text: Option<[u8; 32]>,
    pub trouble: Option<Trouble>,
}

// A night before its first stretch.
#[tactic(auto, unfolding(crate::specs::Night::begun_with))]
fn begun_with(list: &[u8], text: Option<[u8; 32]>, first: bool, wrong: Option<Trouble>) -> Night
    ensures { result ≡ begun_with list.now text first wrong }
{
    let said = desk_list::check(list);
    let trouble = match said {
        Ok(_) => wrong,
        Err(unsound) => Some(Trouble::from(unsound)),
    };
    Night {
        standings: [Standing::begun(); MOST],
        count: said.unwrap_or(0),
        at: 0,
        stretches: 0,
        segments: 0,
        bytes: 0,
        first,
        list: digest(list),
        text,
        trouble,
    }
}

// The night with this trouble.
#[tactic(auto, unfolding(crate::specs::Night::troubled))]
fn troubled(night: Night, trouble: Trouble) -> Night
    ensures { result ≡ troubled night trouble }
{
    Night {
        trouble: Some(trouble),
        ..night
    }
}

// The night after one stretch more, with `at` after its line.
#[tactic(auto, unfolding(crate::specs::Night::taken, crate::specs::Night::segments_of))]
fn taken(night: Night, list: &[u8], at: usize, stretch: &[u8]) -> Night
    ensures { result ≡ taken night list.now at stretch.now }
{
    let swept = sweep(night.standings, night.first, list, stretch);
    let standings = swept.standings;
    Night {
        standings,
        at,
        stretches: plus(night.stretches, 1),
        segments: plus(night.segments, stated(stretch) as u64),
        bytes: plus(night.bytes, stretch.len() as u64),
        trouble: swept.trouble,
        ..night
    }
}

impl Night {
    // A night over the stretches that a manifest names. With `first` each sequence is searched to its first end only.
    #[tactic(auto, unfolding(crate::specs::Night::beginning))]
    pub fn begin(list: &[u8], manifest: &[u8], first: bool) -> Night
        ensures { result ≡ beginning list.now manifest.now first }
    {
        let wrong = manifest::check(manifest).err().map(Trouble::from);
        begun_with(list, Some(digest(manifest)), first, wrong)
    }

    // A night over files for which nobody vouches.
    #[tactic(auto, unfolding(crate::specs::Night::beginning_files))]
    pub fn begin_files(list: &[u8], first: bool) -> Night
        ensures { result ≡ beginning_files list.now first }
    {
        begun_with(list, None, first, None)
    }

    // The place in the manifest after the line of this stretch, which it must name next, if one vouches.
    #[tactic(auto, unfolding(crate::specs::Night::place_of))]
    fn place(self, manifest: &[u8], stretch: &[u8]) -> Result<usize, Trouble>
        ensures { result ≡ place_of manifest.now stretch.now self }
    {
        if self.text.is_none() {
            return Ok(self.at);
        }
        let Some(
            Line {
                said: Ok(Some(named)),
                next,
            },
        ) = next_stretch(manifest, self.at)
        else {
            return Err(Trouble::Added);
        };
        if !vouches(manifest, named.start, stretch) {
            return Err(Trouble::Changed);
        }
        Ok(next)
    }

    // One stretch more: the next that the manifest names, if one vouches. Every sequence is taken over it. In trouble nothing changes.
    #[tactic(auto, unfolding(crate::specs::Night::overing))]
    pub fn over(self, list: &[u8], manifest: &[u8], stretch: &[u8]) -> Night
        ensures { result ≡ overing list.now manifest.now stretch.now self }
    {
        if self.trouble.is_some() {
            return self;
        }
        match self.place(manifest, stretch) {
            Ok(at) => taken(self, list, at, stretch),
            Err(wrong) => troubled(self, wrong),
        }
    }

    // The next stretch could not be read.
    #[tactic(auto, unfolding(crate::specs::Night::missing))]
    pub fn missed(self) -> Night
        ensures { result ≡ missing self }
    {
        if self.trouble.is_some() {
            return self;
        }
        troubled(self, Trouble::Unread)
    }

    // Whether nothing more is to be handed in: there is trouble, or each sequence was to be searched to its first end, and has ended.
    #[tactic(auto, unfolding(crate::specs::Night::is_over))]
    pub fn is_over(self) -> bool
        ensures { result ≡ is_over self }
    {
        self.trouble.is_some() || (self.first && all_end(&self.standings, self.count))
    }
}
