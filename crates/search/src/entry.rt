// What every call from a state asks before it reads a byte.
ghost use Rattle.std.specs.Prelude.{◌≡◌};
ghost use Rattle.text.specs.Refusal.{ok, outcome};
ghost use Rattle.search.specs.Answers.{entering};

use crate::state::State;
use layout::pieces::fits;
use text::pattern::check;
use text::state::is_state;
use text::{Refusal, refusal};

// Refusals 1, 2, 3 of the pattern, 4 of the bytes, and 17 of the state.
pub fn enter(pattern: &[u8], state: State, bytes: &[u8]) -> Result<(), Refusal>
    ensures { outcome result ≡ entering pattern.now state.bits bytes.now (ok tt) }
{
    check(pattern)?;
    fits(bytes)?;
    if !is_state(pattern.len(), state.bits) {
        return Err(Refusal {
            number: refusal::STATE_WRONG,
            place: 0,
        });
    }
    Ok(())
}
