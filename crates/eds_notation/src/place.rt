// Lines and columns of a text, both counted from 1. A column is a byte.
ghost use Rattle.std.specs.Prelude.{◌≡◌, take};
ghost use Rattle.eds_notation.specs.Places.{over_byte, behind};

#[derive(Clone, Copy)]
pub struct Place {
    pub line: usize,
    pub column: usize,
}

impl Place {
    // Where a text begins.
    pub fn first() -> Place
        ensures { (result.line ≡ 1) × (result.column ≡ 1) }
    {
        Place { line: 1, column: 1 }
    }

    // After one byte. The greatest number stays.
    #[tactic(auto, unfolding(crate::specs::Places::over_byte, crate::specs::Places::next))]
    fn over(self, byte: u8) -> Place
        ensures { result ≡ over_byte self byte }
    {
        if byte == b'\n' {
            return Place {
                line: self.line.saturating_add(1),
                column: 1,
            };
        }
        Place {
            line: self.line,
            column: self.column.saturating_add(1),
        }
    }

    // After these bytes, up to the n-th.
    pub fn behind(self, bytes: &[u8], n: usize) -> Place
        ensures { result ≡ behind self (take n bytes.now) }
    {
        let mut place = self;
        for byte in &bytes[..n.min(bytes.len())] {
            place = place.over(*byte);
        }
        place
    }
}
