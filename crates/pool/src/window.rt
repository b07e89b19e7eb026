// A window of the chromosome, of which a stretch is built: its bases, and the lines in short of its records.
use lines::put_bytes;
use pool_files::Held;
use text::{limits, part};
use vcf::records::heading::HEADING;

// One buffer has the window's bases and, from this place on, the heading and its records' lines in short.
pub const LINES: usize = limits::GREATEST_STRETCH;

// Room for the lines of every window too: a stretch of the most bytes has at most 8,191 records, and a record of so few bytes has a line
// of 20.
pub const ROOM: usize = LINES + 196608;

// How many bytes the heading has, with its line feed.
const HEADED: usize = 20;

// The position of the window's first base, how many bases it has, what its stretch holds, the buffer, the place after its lines, and whether
// the bases that come are those of a record's REF: they are held with its segment.
#[derive(Drop)]
pub struct Window<'a> {
    pub first: usize,
    pub count: usize,
    held: Held,
    // Stays a buffer with places in it: the memory is fixed.
    pub bytes: &'a mut [u8],
    end: usize,
    pub is_inside: bool,
}

impl Window<'_> {
    // The window that begins with the base of this position, in a buffer of ROOM bytes.
    pub fn begin<'a>(first: usize, bytes: &'a mut [u8]) -> Window<'a> {
        let end = put_bytes(&HEADING, &mut *bytes, LINES);
        put_bytes(b"\n", &mut *bytes, end);
        Window {
            first,
            count: 0,
            held: Held::nothing(),
            bytes,
            end: LINES + HEADED,
            is_inside: false,
        }
    }

    // The window after this one begins.
    pub fn pass(&mut self) {
        self.first = self.next_position();
        self.count = 0;
        self.held = Held::nothing();
        self.end = LINES + HEADED;
    }

    // The position of the next base.
    pub fn next_position(&self) -> usize {
        self.first.wrapping_add(self.count)
    }

    // Its bases, and its lines.
    pub fn bases(&self) -> &[u8] {
        part(self.bytes, 0, self.count)
    }

    pub fn lines(&self) -> &[u8] {
        part(self.bytes, LINES, self.end)
    }

    // How many bases more there is room for. Those of a record's REF have room, since its segment has.
    pub fn room(&self) -> usize {
        if self.is_inside {
            return usize::MAX;
        }
        self.held.room()
    }

    // With bases up to a count, which had room.
    pub fn hold(&mut self, count: usize) {
        let more = count.wrapping_sub(self.count);
        self.count = count;
        if !self.is_inside {
            self.held = self.held.bases(more).unwrap_or(self.held);
        }
    }

    // With a record's segment of that many bytes. Whether it has room.
    pub fn hold_record(&mut self, bytes: usize) -> bool {
        let Some(held) = self.held.record(bytes) else {
            return false;
        };
        self.held = held;
        true
    }

    // Puts a record's line after the others. Whether there is room left: where there is none, it is not one of them.
    pub fn put_line(&mut self, line: &[u8]) -> bool {
        let end = put_bytes(line, &mut *self.bytes, self.end);
        let end = put_bytes(b"\n", &mut *self.bytes, end);
        if end == ROOM {
            return false;
        }
        self.end = end;
        true
    }
}
