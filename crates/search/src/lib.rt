// States, and the search of a pattern in a stretch by two methods.
#![tactic(auto)]

mod bits;
mod borders;
mod both;
mod entry;
mod first;
mod letter_vectors;
mod marking;
mod method;
mod run;
mod searching;
mod segment;
mod state;
mod vectors;

pub use both::{Pair, SoughtBoth, either};
pub use first::First;
pub use letter_vectors::masks;
pub use searching::{Searched, by_bits, by_borders};
pub use state::{Carried, Fed, Sought, State};
pub use vectors::complements;
