// A night of the release desk: a list of withheld sequences, searched for in the stretches of a text one after another, and what comes
// of it. Nothing is read or written here.
#![tactic(auto)]

mod ending;
mod moving;
mod night;
mod standings;
mod sweeping;
mod trouble;

pub use ending::{Verdict, put_verdict};
pub use night::Night;
pub use trouble::Trouble;
