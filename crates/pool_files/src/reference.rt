// A file in FASTA format, of which the sequence of a name is taken: header lines begin with >, and their first word is a name; the lines
// after one, up to the next, are its sequence. A line ends with a line feed, before which a carriage return may stand; the last may
// end with the file. The file is read in pieces of any size, and a piece may end anywhere.
ghost use Rattle.std.specs.Prelude.{◌≡◌, ◌+◌, ◌-◌, ◌<◌, true, false, length, drop, slice_set};
ghost use Rattle.pool_files.specs.Reference.{in_header, ends_word, in_word, in_line, step_of, led_to, by_led, wanted, taking};

use crate::word::go_on;
use text::letter::is_letter;

// Where the reading stands.
#[derive(Clone, Copy)]
pub enum Reading {
    // Before the first byte, which is a >.
    Start,
    // Where a line begins, before the sequence.
    Before,
    // In a line before the sequence.
    Passing,
    // In the first word of a header, that many of whose bytes are the name's first.
    Word(usize),
    // In the header of the sequence, after its first word.
    Header,
    // Where a line of the sequence begins.
    Begun,
    // In a line of the sequence, after a letter.
    Inside,
    // After a carriage return in a line of the sequence.
    Returned,
    // After the sequence: the next header begins.
    Over,
    // A byte is wrong: no > at the start, or no letter in the sequence.
    Wrong,
}

// After a byte of a header, the sequence's own or not, or of a line that counts no more.
#[tactic(auto, unfolding(crate::specs::Reference::in_header))]
fn in_header(found: bool, byte: u8) -> Reading
    ensures { result ≡ in_header found byte }
{
    match byte {
        b'\n' if found => Reading::Begun,
        b'\n' => Reading::Before,
        _ if found => Reading::Header,
        _ => Reading::Passing,
    }
}

// Whether a byte ends the first word of a header.
#[tactic(auto, unfolding(crate::specs::Reference::ends_word))]
fn ends_word(byte: u8) -> bool
    ensures { result ≡ ends_word byte }
{
    matches!(byte, b'\n' | b'\r' | b' ' | b'\t')
}

// After a byte of a header's first word.
#[tactic(auto, unfolding(crate::specs::Reference::in_word))]
fn in_word(name: &[u8], matched: usize, byte: u8) -> Reading
    ensures { result ≡ in_word name.now matched byte }
{
    if ends_word(byte) {
        let found = matched == name.len();
        return in_header(found, byte);
    }
    Reading::Word(go_on(name, matched, byte))
}

// After a byte of a line of the sequence.
#[tactic(auto, unfolding(crate::specs::Reference::in_line))]
fn in_line(byte: u8) -> Reading
    ensures { result ≡ in_line byte }
{
    match byte {
        b'\n' => Reading::Begun,
        b'\r' => Reading::Returned,
        _ if is_letter(byte) => Reading::Inside,
        _ => Reading::Wrong,
    }
}

// After one byte more.
#[tactic(auto, unfolding(crate::specs::Reference::step_of))]
fn step(name: &[u8], reading: Reading, byte: u8) -> Reading
    ensures { result ≡ step_of name.now reading byte }
{
    match reading {
        Reading::Start | Reading::Before if byte == b'>' => Reading::Word(0),
        Reading::Start => Reading::Wrong,
        Reading::Before | Reading::Passing => in_header(false, byte),
        Reading::Word(matched) => in_word(name, matched, byte),
        Reading::Header => in_header(true, byte),
        Reading::Begun if byte == b'>' => Reading::Over,
        Reading::Begun | Reading::Inside => in_line(byte),
        Reading::Returned if byte == b'\n' => Reading::Begun,
        Reading::Returned => Reading::Wrong,
        Reading::Over | Reading::Wrong => reading,
    }
}

impl Reading {
    // Whether the sequence is over, or a byte is wrong.
    #[tactic(auto, unfolding(crate::specs::Reference::led_to))]
    fn is_end(self) -> bool
        ensures { result ≡ by_led (led_to self) false false true }
    {
        matches!(self, Reading::Over | Reading::Wrong)
    }
}

// Where the next base goes, and how many more are wanted.
#[derive(Clone, Copy)]
pub struct Space {
    pub n: usize,
    pub left: usize,
}

// Puts a byte into the buffer, if it has led to a base.
#[tactic(auto, unfolding(crate::specs::Reference::led_to))]
fn put_base(reading: Reading, byte: u8, space: Space, bases: &mut [u8]) -> Space
    requires { (space.n < length bases.old) × (0 < space.left) }
    ensures value { result ≡ by_led (led_to reading) (record { n = space.n + 1; left = space.left - 1 }) space space }
    ensures bases_after { bases.new ≡ by_led (led_to reading) (slice_set bases.old space.n byte) bases.old bases.old }
{
    let n = space.n;
    match reading {
        Reading::Inside => {
            bases[n] = byte;
            Space {
                n: n + 1,
                left: space.left - 1,
            }
        }
        _ => space,
    }
}

// How far a piece was read: where the reading stands, the place in the piece, and the number of bases in the buffer.
#[derive(Clone, Copy)]
pub struct Taken {
    pub reading: Reading,
    pub at: usize,
    pub count: usize,
}

// How many bases more are wanted in a buffer of that many bytes, where there are to be `most` in all.
#[tactic(auto, unfolding(crate::specs::Reference::wanted))]
fn wanted(size: usize, count: usize, most: usize) -> usize
    ensures { result ≡ wanted size count most }
{
    most.min(size).saturating_sub(count)
}

// Reads on in a piece from where it was read, and puts the bases of the sequence into a buffer after those that are there, until there
// are `most`, the buffer is full, the piece ends, the sequence is over or a byte is wrong. The place is then that of the byte that is not
// read.
pub fn take(name: &[u8], from: Taken, piece: &[u8], bases: &mut [u8], most: usize) -> Taken
    ensures answer { result ≡ (taking name.now from.reading (wanted (length bases.old) from.count most)
        (drop from.at piece.now) from.at from.count bases.old).taken }
    ensures buffer { bases.new ≡ (taking name.now from.reading (wanted (length bases.old) from.count most)
        (drop from.at piece.now) from.at from.count bases.old).buffer }
{
    let mut now = from.reading;
    let mut space = Space {
        n: from.count,
        left: wanted(bases.len(), from.count, most),
    };
    for at in from.at..piece.len() {
        if space.left == 0 {
            return Taken {
                reading: now,
                at,
                count: space.n,
            };
        }
        let byte = piece[at];
        let next = step(name, now, byte);
        if next.is_end() {
            return Taken {
                reading: next,
                at,
                count: space.n,
            };
        }
        space = put_base(next, byte, space, &mut *bases);
        now = next;
    }
    Taken {
        reading: now,
        at: from.at.max(piece.len()),
        count: space.n,
    }
}
