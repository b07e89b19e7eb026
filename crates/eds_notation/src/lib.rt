// Texts in braces, as the literature writes them: {CGA,G}{,T}GG. Reading them into what `stretch::write` takes, piece by piece and
// cut between segments where a stretch is full; and the braces of a stretch.
#![tactic(auto)]

mod braced;
mod cutting;
mod filling;
mod notation;
mod place;
mod repetition;
mod wrong;

pub use braced::put_braces;
pub use cutting::{cut, write_closed};
pub use filling::{Halt, Stop, Tape, finish, read_on};
pub use notation::{Begun, Mode};
pub use place::Place;
pub use wrong::Wrong;
