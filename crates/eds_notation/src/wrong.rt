// What can be wrong with a text in braces.
ghost use Rattle.std.specs.Prelude.{◌≡◌};
ghost use Rattle.eds_notation.specs.Numbers.{number};

#[derive(Clone, Copy)]
pub enum Wrong {
    // A byte is no letter, brace, comma or white space.
    Letter = 1,
    // A brace opens inside braces.
    Opened = 2,
    // A brace closes, and none is open.
    Closed = 3,
    // A comma outside braces.
    Comma = 4,
    // The text ends inside braces.
    Ended = 5,
    // A segment has over 255 variants.
    Variants = 6,
    // A variant is equal to an earlier one of its segment.
    Repeated = 7,
    // A segment alone needs over 32,768 bytes.
    Long = 8,
}

impl Wrong {
    // The number by which programs tell it.
    pub fn number(self) -> u64
        ensures { result ≡ number self }
    {
        self as u64
    }
}
