// The notation, byte by byte: what stands open before a byte, and what the byte does.
ghost use Rattle.std.specs.Prelude.{◌≡◌};
ghost use Rattle.eds_notation.specs.Notation.{white, inside, nothing, brace, lettered, opened, comma, closed, act_of, ended};

use crate::wrong::Wrong;
use text::letter::is_letter;
use text::limits;

// Where a byte stands: between segments, in letters outside braces, or inside braces.
#[derive(Clone, Copy)]
pub enum Mode {
    Between,
    Bare,
    Braced,
}

// The segment that stands open: how many of its variants are closed, the letters of all of them, and those of the open one.
#[derive(Clone, Copy)]
pub struct Begun {
    pub mode: Mode,
    pub variants: usize,
    pub letters: usize,
    pub spelt: usize,
}

// What a byte does that is not wrong, and what stands open after it: nothing is put, or the letter itself, or the open variant is closed, or it and its
// segment are.
#[derive(Clone, Copy)]
pub enum Act {
    Pass(Begun),
    Letter(Begun),
    Variant(Begun),
    Segment(Begun),
}

// Space, tab and line ends.
#[tactic(auto, unfolding(crate::specs::Notation::white))]
fn is_white(byte: u8) -> bool
    ensures { result ≡ white byte }
{
    matches!(byte, b' ' | b'\t' | b'\r' | b'\n')
}

// A letter between segments begins one outside braces.
fn inside(mode: Mode) -> Mode
    ensures { result ≡ inside mode }
{
    match mode {
        Mode::Between => Mode::Bare,
        Mode::Bare => Mode::Bare,
        Mode::Braced => Mode::Braced,
    }
}

impl Begun {
    // Nothing stands open, as before the first byte.
    pub(crate) fn nothing() -> Begun
        ensures { result ≡ nothing }
    {
        Begun {
            mode: Mode::Between,
            variants: 0,
            letters: 0,
            spelt: 0,
        }
    }

    // A segment in braces, of which nothing has been read.
    fn brace() -> Begun
        ensures { result ≡ brace }
    {
        Begun {
            mode: Mode::Braced,
            variants: 0,
            letters: 0,
            spelt: 0,
        }
    }

    // A letter: one more of the open variant, or the first of a segment outside braces.
    #[tactic(auto, unfolding(crate::specs::Notation::lettered))]
    fn letter(self) -> Result<Act, Wrong>
        ensures { result ≡ lettered self }
    {
        let letters = self.letters;
        let spelt = self.spelt;
        if limits::GREATEST_STRETCH <= letters {
            return Err(Wrong::Long);
        }
        if limits::GREATEST_STRETCH <= spelt {
            return Err(Wrong::Long);
        }
        let before = self.mode;
        let mode = inside(before);
        Ok(Act::Letter(Begun {
            mode,
            variants: self.variants,
            letters: letters + 1,
            spelt: spelt + 1,
        }))
    }

    // A brace that opens; letters outside braces end before it.
    fn opened(self) -> Result<Act, Wrong>
        ensures { result ≡ opened self.mode }
    {
        let mode = self.mode;
        match mode {
            Mode::Between => Ok(Act::Pass(Begun::brace())),
            Mode::Bare => Ok(Act::Segment(Begun::brace())),
            Mode::Braced => Err(Wrong::Opened),
        }
    }

    // A comma: the next variant of the segment begins.
    fn comma(self) -> Result<Act, Wrong>
        ensures { result ≡ comma self.mode self.variants self.letters }
    {
        let mode = self.mode;
        let variants = self.variants;
        match mode {
            Mode::Between => Err(Wrong::Comma),
            Mode::Bare => Err(Wrong::Comma),
            Mode::Braced => {
                if 254 <= variants {
                    return Err(Wrong::Variants);
                }
                Ok(Act::Variant(Begun {
                    mode: Mode::Braced,
                    variants: variants + 1,
                    letters: self.letters,
                    spelt: 0,
                }))
            }
        }
    }

    // A brace that closes.
    fn closed(self) -> Result<Act, Wrong>
        ensures { result ≡ closed self.mode }
    {
        let mode = self.mode;
        match mode {
            Mode::Between => Err(Wrong::Closed),
            Mode::Bare => Err(Wrong::Closed),
            Mode::Braced => Ok(Act::Segment(Begun::nothing())),
        }
    }

    // What a byte does.
    #[tactic(auto, unfolding(crate::specs::Notation::act_of))]
    pub(crate) fn act(self, byte: u8) -> Result<Act, Wrong>
        ensures { result ≡ act_of self byte }
    {
        if is_white(byte) {
            return Ok(Act::Pass(self));
        }
        if is_letter(byte) {
            return self.letter();
        }
        if byte == b'{' {
            return self.opened();
        }
        if byte == b',' {
            return self.comma();
        }
        if byte == b'}' {
            return self.closed();
        }
        Err(Wrong::Letter)
    }

    // What the end of the text does.
    pub(crate) fn end(self) -> Result<Act, Wrong>
        ensures { result ≡ ended self self.mode }
    {
        let mode = self.mode;
        match mode {
            Mode::Between => Ok(Act::Pass(self)),
            Mode::Bare => Ok(Act::Segment(Begun::nothing())),
            Mode::Braced => Err(Wrong::Ended),
        }
    }
}
