// What a clinic sends, read in pieces: the sequence of a name in a reference, and the lines of a variant file in short. And how much of
// a chromosome one stretch holds.
#![tactic(auto)]

mod held;
mod reference;
mod short;
mod word;

pub use held::Held;
pub use reference::{Reading, Taken, take};
pub use short::{Come, ShortLine, read_line};
