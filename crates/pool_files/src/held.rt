// What a stretch holds so far, counted in its bytes. Bases of the reference up to the next record are one segment of one variant, so
// only the first of them needs more than its letter: the bytes of the least segment.
ghost use Rattle.std.specs.Prelude.{◌≡◌};
ghost use Rattle.pool_files.specs.Room.{nothing, room_in, with_bases, with_record};

use layout::{FIRST_SEGMENT, LEAST_SEGMENT};
use text::limits;

#[derive(Clone, Copy)]
pub struct Held {
    // The bytes of the stretch.
    pub bytes: usize,
    // Whether its last segment is of bases after the last record.
    pub running: bool,
}

impl Held {
    // No segment: a segment count alone.
    pub fn nothing() -> Held
        ensures { result ≡ nothing }
    {
        Held {
            bytes: FIRST_SEGMENT,
            running: false,
        }
    }

    // How many bases more there is room for.
    pub fn room(self) -> usize
        ensures { result ≡ room_in self }
    {
        let left = limits::GREATEST_STRETCH.saturating_sub(self.bytes);
        if self.running {
            return left;
        }
        left.saturating_sub(LEAST_SEGMENT)
    }

    // With that many bases more, if there is room for them.
    pub fn bases(self, n: usize) -> Option<Held>
        ensures { result ≡ with_bases self n }
    {
        if n == 0 {
            return Some(self);
        }
        let room = self.room();
        if room < n {
            return None;
        }
        Some(Held {
            bytes: limits::GREATEST_STRETCH - (room - n),
            running: true,
        })
    }

    // With a record's segment of that many bytes, if there is room for it.
    pub fn record(self, n: usize) -> Option<Held>
        ensures { result ≡ with_record self n }
    {
        let bytes = self.bytes.checked_add(n)?;
        if limits::GREATEST_STRETCH < bytes {
            return None;
        }
        Some(Held {
            bytes,
            running: false,
        })
    }
}
