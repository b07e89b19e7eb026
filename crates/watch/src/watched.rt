// The records of a watch list.
ghost use Rattle.std.specs.Prelude.{◌≡◌};
ghost use Rattle.watch.specs.Watching.{sound};

use text::limits;
use text::pattern::check;

// A withheld sequence, the first m bytes of `pattern`, and its label. Bytes after the m bases are disregarded.
// Stays a buffer with a length: its names and shape are fixed.
#[derive(Clone, Copy)]
pub struct Watched {
    pub pattern: [u8; 64],
    pub m: u8,
    pub label: u64,
}

impl Watched {
    // Whether refusals 1, 2 and 3 accept its pattern.
    pub(crate) fn is_sound(&self) -> bool
        ensures { result ≡ sound self.now }
    {
        let m = self.m as usize;
        if limits::GREATEST_PATTERN < m {
            return false;
        }
        check(&self.pattern[..m]).is_ok()
    }
}
