// Letters: what a byte of a variant means. References have lower case in repeat regions, and N where nothing is known; a pattern is
// made of bases alone.
ghost use Rattle.std.specs.Prelude.{◌≡◌};
ghost use Rattle.text.specs.Letter.{base, letter, raised, meaning_of, first_not};

// What a byte means: the base, in upper case; that no base is known; or that it is no letter.
#[derive(Clone, Copy)]
pub enum Letter {
    Base(u8),
    Unknown,
    None,
}

// What a byte means.
pub fn meaning(byte: u8) -> Letter
    ensures { result ≡ meaning_of byte }
{
    match byte {
        b'A' | b'a' => Letter::Base(b'A'),
        b'C' | b'c' => Letter::Base(b'C'),
        b'G' | b'g' => Letter::Base(b'G'),
        b'T' | b't' => Letter::Base(b'T'),
        b'N' | b'n' => Letter::Unknown,
        _ => Letter::None,
    }
}

// The byte in upper case: of a letter the case is one bit.
pub fn raise(byte: u8) -> u8
    ensures { result ≡ raised byte }
{
    if is_letter(byte) {
        return byte & 0xDF;
    }
    byte
}

// Whether a byte is a letter.
pub fn is_letter(byte: u8) -> bool
    ensures { result ≡ letter byte }
{
    match meaning(byte) {
        Letter::Base(_) => true,
        Letter::Unknown => true,
        Letter::None => false,
    }
}

// Whether a byte is a base as a pattern has it: A, C, G or T.
pub fn is_base(byte: u8) -> bool
    ensures { result ≡ base byte }
{
    match meaning(byte) {
        Letter::Base(base) => byte == base,
        Letter::Unknown => false,
        Letter::None => false,
    }
}

// The place of the first byte that is no letter; the length where every byte is one.
pub fn first_wrong(part: &[u8]) -> usize
    ensures { result ≡ first_not letter part.now }
{
    part.iter()
        .position(|byte| !is_letter(*byte))
        .unwrap_or(part.len())
}
