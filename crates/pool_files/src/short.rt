// A line of a variant file in short: what is asked of a record stands in its first eight fields, and of these only in POS, REF and ALT,
// once CHROM is known to be the chromosome's name. So a line of any length, of many samples or long annotations, is kept as a tab, POS,
// two tabs, REF, a tab, ALT and three tabs: a record of eight fields, with an empty CHROM, that states the same. Of a line that begins
// with # all is kept but that # and tabs, as far as there is room. Every tab is counted. The file is read in pieces of any size, and a
// piece may end anywhere.
ghost use Rattle.std.specs.Prelude.{◌≡◌, ◌&&◌, length, drop, ◌==◌};
ghost use Rattle.pool_files.specs.Short.{keeps, line_at, putting, over_byte, reading};

use crate::word::go_on;

// How far a line has come.
#[derive(Clone, Copy)]
pub struct ShortLine {
    // The number of the field, counted from 0; 7 for every field from the eighth on, and 8 for a line that begins with #.
    // Stays a number: all but the last are counts, and `act_of` and `keeps` of specs/ speak of them so.
    pub field: usize,
    // How many bytes of CHROM are the name's first.
    pub matched: usize,
    // How many tabs it has so far.
    pub tabs: usize,
    // The place after what is put, and whether all had room.
    pub behind: usize,
    pub whole: bool,
}

// Whether the bytes of a field are kept: POS, REF and ALT, and what stands after a #.
#[tactic(auto, unfolding(crate::specs::Short::keeps))]
fn keeps(field: usize) -> bool
    ensures { result ≡ keeps field }
{
    matches!(field, 1 | 3 | 4 | 8)
}

impl ShortLine {
    // A line that begins, to be put from a place on.
    pub fn at(place: usize) -> ShortLine
        ensures { result ≡ line_at place }
    {
        ShortLine {
            field: 0,
            matched: 0,
            tabs: 0,
            behind: place,
            whole: true,
        }
    }

    // With a byte put, where there is room for it.
    #[tactic(auto, unfolding(crate::specs::Short::putting))]
    fn put(self, byte: u8, short: &mut [u8]) -> ShortLine
        ensures value { result ≡ (putting self byte short.old).line }
        ensures short_after { short.new ≡ (putting self byte short.old).buffer }
    {
        let mut next = self;
        let behind = self.behind;
        if short.len() <= behind {
            next.whole = false;
            return next;
        }
        short[behind] = byte;
        next.behind = behind + 1;
        next
    }

    // After one byte more, which is no line feed. CHROM is compared, unless a # comes first; POS, REF and ALT are kept, and so are tabs up
    // to the eighth field; later ones are counted.
    fn over(self, name: &[u8], byte: u8, short: &mut [u8]) -> ShortLine
        ensures value { result ≡ (over_byte name.now self byte short.old).line }
        ensures short_after { short.new ≡ (over_byte name.now self byte short.old).buffer }
    {
        let field = self.field;
        let mut next = self;
        if byte == b'\t' {
            next.tabs = std::num::wrapping_add_usize(self.tabs, 1);
            if field < 7 {
                next.field = field + 1;
                return next.put(byte, &mut *short);
            }
            return next;
        }
        if field == 0 {
            if byte == b'#' && self.matched == 0 {
                next.field = 8;
                return next;
            }
            next.matched = go_on(name, self.matched, byte);
            return next;
        }
        if keeps(field) {
            return next.put(byte, &mut *short);
        }
        next
    }

    // Whether nothing of it is read yet.
    pub fn is_new(self) -> bool
        ensures { result ≡ (self.field == 0) && (self.matched == 0) }
    {
        self.field == 0 && self.matched == 0
    }

    // Whether it begins with #.
    pub fn is_comment(self) -> bool
        ensures { result ≡ (self.field == 8) }
    {
        self.field == 8
    }

    // Whether it has at least eight fields.
    pub fn has_fields(self) -> bool
        ensures { result ≡ (self.field == 7) }
    {
        self.field == 7
    }

    // Whether its CHROM is the name.
    pub fn is_of(self, name: &[u8]) -> bool
        ensures { result ≡ (self.matched == length name.now) }
    {
        self.matched == name.len()
    }
}

// A line as far as it has come, and the place after its line feed, if it has ended.
#[derive(Clone, Copy)]
pub struct Come {
    pub line: ShortLine,
    pub next: Option<usize>,
}

// Reads on in a piece from a place on, up to the end of the line.
pub fn read_line(name: &[u8], line: ShortLine, piece: &[u8], from: usize, short: &mut [u8]) -> Come
    ensures answer { result ≡ (reading name.now line (drop from piece.now) from short.old).come }
    ensures buffer { short.new ≡ (reading name.now line (drop from piece.now) from
        short.old).left }
{
    let mut now = line;
    for at in from..piece.len() {
        let byte = piece[at];
        if byte == b'\n' {
            return Come {
                line: now,
                next: Some(at + 1),
            };
        }
        now = now.over(name, byte, &mut *short);
    }
    Come {
        line: now,
        next: None,
    }
}
