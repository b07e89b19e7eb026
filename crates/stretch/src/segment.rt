// One segment in the bytes, checked: its count and its variants, one after another.
ghost use Rattle.std.specs.Prelude.{◌≡◌};
ghost use Rattle.text.specs.Letter.{Classes};
ghost use Rattle.text.specs.Refusal.{outcome};
ghost use Rattle.stretch.specs.Answers.{walked_segment};

use layout::cursor::Cursor;
use text::Refusal;
use text::spelling::any_wrong_by;

// How far a walk has come: the place after what was read, and its size.
#[derive(Clone, Copy)]
pub struct Walked {
    pub next: usize,
    pub size: usize,
}

// The segment at `at`: refusals 5 to 8. Letters are told by the table.
pub fn segment_at(classes: &[u8; 256], stretch: &[u8], at: usize) -> Result<Walked, Refusal>
    requires { Classes classes.now }
    ensures { outcome result ≡ walked_segment stretch.now at }
{
    let mut cursor = Cursor::enter(stretch, at)?;
    // Each variant tells where the next begins: no iterator does.
    while 0 < cursor.left {
        let part = cursor.head(stretch)?;
        let letters = &stretch[part.start..part.next];
        if any_wrong_by(classes, letters) {
            return Err(cursor.misspelt(stretch));
        }
        if cursor.suspects(stretch) {
            cursor.compared(stretch)?;
        }
        cursor = cursor.past(stretch, part.next, letters.len());
    }
    Ok(Walked {
        next: cursor.at,
        size: cursor.size,
    })
}
