// What the release desk decides of a text that comes as stretches: where a withheld sequence stands after each of them, and in which
// segments it ends.
#![tactic(auto)]

mod first;
mod marked;
pub mod said;
mod standing;
mod sum;

pub use first::{Stopped, pass_first};
pub use marked::next_marked;
pub use standing::{Passed, Standing, pass};
pub use sum::plus;
