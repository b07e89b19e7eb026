// Letters, patterns, refusals, and tests on parts of slices: what every crate above this one cites.
#![tactic(auto)]

pub mod compare;
pub mod from_end;
pub mod letter;
pub mod limits;
pub mod numbers;
mod parts;
pub mod pattern;
pub mod refusal;
pub mod size;
pub mod spelling;
pub mod state;
pub mod strand;

pub use parts::part;
pub use refusal::Refusal;
