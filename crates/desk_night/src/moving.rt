// One sequence, taken over one stretch: to all of its ends, or to the first.
ghost use Rattle.std.specs.Prelude.{◌≡◌};
ghost use Rattle.text.specs.Refusal.{outcome};
ghost use Rattle.desk_night.specs.Sweep.{moved};

use desk_verdict::{Standing, pass, pass_first};
use text::{Refusal, limits};

// Where the sequence then stands, searched as far as the night asks. What is marked is said by who wants to say it: here it is only
// counted.
// A flag says how far, not a closure: it is a value of the night, which is kept between calls.
pub fn moved_by(
    first: bool,
    pattern: &[u8],
    standing: Standing,
    stretch: &[u8],
) -> Result<Standing, Refusal>
    ensures { outcome result ≡ moved first pattern.now standing stretch.now }
{
    if first {
        let stopped = pass_first(pattern, standing, stretch)?;
        return Ok(stopped.standing);
    }
    let mut marks = [0u8; limits::MOST_IN_STRETCH];
    let passed = pass(pattern, standing, stretch, &mut marks)?;
    Ok(passed.standing)
}
