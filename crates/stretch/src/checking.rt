// The check of a whole stretch, in one walk.
ghost use Rattle.std.specs.Prelude.{◌≡◌};
ghost use Rattle.text.specs.Refusal.{outcome};
ghost use Rattle.stretch.specs.Answers.{told_checked, checking};

use crate::segment::segment_at;
use layout::pieces::fits;
use layout::walk::Walk;
use text::Refusal;
use text::spelling::classes;

// The segment count and the size of a sound stretch. It stays an enum of its own: its name and shape are fixed.
#[derive(Clone, Copy)]
pub enum Checked {
    Sound { segments: usize, size: usize },
    Refused(Refusal),
}

// The same two numbers.
#[derive(Clone, Copy)]
pub struct Sum {
    pub segments: usize,
    pub size: usize,
}

// Refusals 4, the first of 5 to 8 in byte order, 9 and 16.
fn summed(stretch: &[u8]) -> Result<Sum, Refusal>
    ensures { outcome result ≡ checking stretch.now }
{
    fits(stretch)?;
    let mut walk = Walk::open(stretch)?;
    let letters = classes();
    // Each segment tells where the next begins: no iterator does.
    while walk.passed < walk.count {
        let walked = segment_at(&letters, stretch, walk.at)?;
        walk = walk.past(walked.next, walked.size);
    }
    walk.end(stretch)?;
    Ok(Sum {
        segments: walk.count,
        size: walk.size,
    })
}

// The same, as its callers have it.
pub fn check(stretch: &[u8]) -> Checked
    ensures { told_checked result ≡ checking stretch.now }
{
    match summed(stretch) {
        Ok(sum) => Checked::Sound {
            segments: sum.segments,
            size: sum.size,
        },
        Err(wrong) => Checked::Refused(wrong),
    }
}
