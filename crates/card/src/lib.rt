// Cards: what a stretch does to a pattern, summed up so that an unchanged stretch is not read again.
#![tactic(auto)]

mod answers;
mod cards;
mod follow;
mod made;
mod rows;
mod test;

pub use answers::{Asked, Made};
pub use cards::Card;
